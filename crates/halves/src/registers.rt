// The registers A, B and C, a pair of bytes each: the masked halves go to one of the two by the shares of the bit, and the shares of the
// chosen half are read at b. The pairs stay behind references: a copy would load both bytes at once. The checks have been made, so `run` has a
// `requires`.
ghost use Rattle.std.specs.Prelude.{◌≡◌, [], ◌∷◌, ◌<◌, set};
ghost use Rattle.halves.specs.Bounded.{Bounded};
ghost use Rattle.halves.specs.Halves.{masked, registers, share};

use crate::{BoundedSelection, Selection};

// A run without a log.
pub fn run(selection: Selection, share0: &mut u8, share1: &mut u8, share2: &mut u8)
    requires { Bounded selection }
    ensures share0_after { share0.new ≡ share 0 selection }
    ensures share1_after { share1.new ≡ share 1 selection }
    ensures share2_after { share2.new ≡ share 2 selection }
{
    let mut a: [u8; 2] = [0, 0];
    let mut b: [u8; 2] = [0, 0];
    let mut c: [u8; 2] = [0, 0];
    fill(BoundedSelection { selection }, &mut a, &mut b, &mut c);
    let at = selection.b as usize;
    *share0 = a[at];
    *share1 = b[at];
    *share2 = c[at];
}

// Steps 4 to 9.
fn fill(checked: BoundedSelection, a: &mut [u8; 2], b: &mut [u8; 2], c: &mut [u8; 2])
    requires a_value { a.old ≡ 0 ∷ 0 ∷ [] }
    requires b_value { b.old ≡ 0 ∷ 0 ∷ [] }
    requires c_value { c.old ≡ 0 ∷ 0 ∷ [] }
    ensures a_after { a.new ≡ registers 0 checked.selection }
    ensures b_after { b.new ≡ registers 1 checked.selection }
    ensures c_after { c.new ≡ registers 2 checked.selection }
{
    let selection = checked.selection;
    let place = crate::place(selection);
    store(checked, selection.c0, place, a, b, c);
    store(checked, 1 - selection.c0, 1 - place, a, b, c);
}

// Steps 4 to 6, or 7 to 9: the half that the bit chooses. Between the two masks of the last stands a barrier, so that they are added one
// after the other, as the log has them; t2 is its index.
fn store(
    checked: BoundedSelection,
    bit: u32,
    place: usize,
    a: &mut [u8; 2],
    b: &mut [u8; 2],
    c: &mut [u8; 2],
)
    requires bit_bound { bit < 2 }
    requires place_bound { place < 2 }
    ensures a_after { a.new ≡ set a.old place (masked 0 checked.selection bit) }
    ensures b_after { b.new ≡ set b.old place (masked 1 checked.selection bit) }
    ensures c_after { c.new ≡ set c.old place (masked 2 checked.selection bit) }
{
    let selection = checked.selection;
    a[place] = crate::half(selection.width, bit, selection.z0) ^ selection.t1 as u8;
    b[place] = crate::half(selection.width, bit, selection.z1) ^ selection.t2 as u8;
    let once = crate::half(selection.width, bit, selection.z2) ^ selection.t1 as u8;
    c[place] = lookup::value_barrier(once, selection.t2) ^ selection.t2 as u8;
}
