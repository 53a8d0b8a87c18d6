// A masked table lookup's numbers, and the masked entry that methods 2 and 3 make. Their definitions stand in specs/.
#![tactic(auto)]

ghost use Rattle.std.specs.Prelude.{◌≡◌, ◌^◌, ◌<◌, length, get_or, set};
ghost use Rattle.bits.specs.Xor.{◌⊕◌};
ghost use Rattle.lookup.specs.Bounded.{Bounded};
ghost use Rattle.lookup.specs.Row.{masked};

mod bounded;

pub use bounded::Lookup;

#[derive(Clone, Copy)]
pub struct Case {
    pub method: u32,
    pub n: u32,
    pub m: u32,
    pub x0: u32,
    pub r1: u32,
    pub r2: u32,
    pub s1: u32,
    pub s2: u32,
    pub r3: u32,
    pub b: u32,
}

// What an accepted call hands back: the answer share, and the count of log entries.
#[derive(Clone, Copy)]
pub struct Answered {
    pub share: u32,
    pub count: u32,
}

// Hands a value back as it is, through one of two cells of memory that both hold it. The compiler cannot know which, so it does not
// join what makes the value with what is done to it. It stands between two exclusive ors with masks: joined, they would be one with
// both masks at once, and the sum of two masks beside a third value gives the secret away. Only tests/audit guards it: a body that
// returns the value at once is proved too. The index is a mask, since no check fixes it and no caller passes a constant.
pub fn value_barrier(value: u8, index: u32) -> u8
    ensures { result ≡ value }
{
    let cells: [u8; 2] = [value, value];
    let at = (index % 2) as usize;
    cells[at]
}

// 0, which the compiler does not know: a mask, joined with what a barrier hands back of it.
pub fn unknown_zero(mask: u32) -> usize
    ensures { result ≡ 0 }
{
    let byte = (mask % 256) as u8;
    (value_barrier(byte, mask) ^ byte) as usize
}

// Puts the table's entry for turn a at `to`, with the output masks added one after the other: s1 before it is stored, s2 where it then
// stands. It is for the methods' runs, so it has a `requires`.
pub fn put_masked_entry(case: Case, table: &[u8], a: u16, bytes: &mut [u8], to: usize, zero: usize)
    requires bounded { Bounded case }
    requires table_len { length table.now ≡ 2 ^ case.n }
    requires a_bound { a < 2 ^ case.n }
    requires to_in_bounds { to < length bytes.old }
    requires zero_value { zero ≡ 0 }
    ensures { bytes.new ≡ set bytes.old to (masked case table.now a) }
{
    let index = case.x0 as usize ^ a as usize;
    bytes[to] = table[index] ^ case.s1 as u8;
    add_mask(bytes, to, case.s2 as u8, zero);
}

// Adds a mask to a byte in memory. `zero` is 0, and comes from `unknown_zero`. So the compiler does not know that this is the byte that was
// stored last, and reads it again, in place of joining two masks. That takes no instruction more than a sum in a register and a store
// would. Only tests/audit guards this too.
fn add_mask(bytes: &mut [u8], to: usize, mask: u8, zero: usize)
    requires to_in_bounds { to < length bytes.old }
    requires zero_value { zero ≡ 0 }
    ensures { bytes.new ≡ set bytes.old to (get_or bytes.old to 0 ⊕ mask) }
{
    let again = &mut bytes[zero..];
    again[to] ^= mask;
}
