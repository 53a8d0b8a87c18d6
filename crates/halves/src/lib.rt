// One half of a word chosen by a bit, both in three shares: the half, the place that the bit's shares give it in the registers, and the run.
// The checks have been made, so every function has a `requires`.
#![tactic(auto)]

ghost use Rattle.std.specs.Prelude.{◌≡◌, ◌*◌, ◌^◌, ◌≤◌, ◌<◌};
ghost use Rattle.halves.specs.Bounded.{Bounded};
ghost use Rattle.halves.specs.Halves.{half as halves_half, c3};

mod bounded;
mod registers;

pub use bounded::BoundedSelection;
pub use registers::run;

// The word's width in bits is twice this width. z0 joined with the masks z1 and z2 is the word, c0 joined with c1 and c2 the bit; t1, t2 and b
// are masks that the choice itself uses.
#[derive(Clone, Copy)]
pub struct Selection {
    pub width: u32,
    pub z0: u32,
    pub z1: u32,
    pub z2: u32,
    pub c0: u32,
    pub c1: u32,
    pub c2: u32,
    pub t1: u32,
    pub t2: u32,
    pub b: u32,
}

// By a shift that the bit chooses: a test of the bit may become a jump. It is never by 0, which leaves the flags of what was done before.
pub fn half(width: u32, bit: u32, word: u32) -> u8
    requires width_bound { width ≤ 8 }
    requires bit_bound { bit < 2 }
    requires word_bound { word < 2 ^ (2 * width) }
    ensures { result ≡ halves_half width bit word }
{
    let low = bits::power(width) - 1;
    (((2 * word) >> (width * (1 - bit) + 1)) & low) as u8
}

// (c1 ⊕ b) ⊕ c2, in this order: c1 ⊕ c2 beside c0 is the bit. t1 is the barrier's index.
pub fn place(selection: Selection) -> usize
    requires { Bounded selection }
    ensures { result ≡ c3 selection }
{
    let once = lookup::value_barrier((selection.c1 ^ selection.b) as u8, selection.t1);
    (once ^ selection.c2 as u8) as usize
}
