// Method 3: the scratch says, masked by the bit b, which turn's entry is kept, and the answer is read from register b.
// The calls have checked the case and measured the buffers, so the runs have a `requires`.
#![tactic(auto)]

ghost use Rattle.std.specs.Prelude.{◌≡◌, [], ◌∷◌, ◌^◌, ◌≤◌, ◌<◌, length, take};
ghost use Rattle.lookup.specs.Case.{Q};
ghost use Rattle.lookup.specs.Bounded.{Bounded};
ghost use Rattle.lookup.specs.Method3.{comparison_table, scratch_3, place_3, registers_3, answer_3};

use lookup::{Case, Lookup};

pub mod logged;
mod parts;

pub use parts::log_length;

// A run without a log: the scratch is prepared, each turn's entry goes to a register, and the answer is register b.
pub fn run(case: Case, table: &[u8], scratch: &mut [u8]) -> u8
    requires bounded { Bounded case }
    requires table_len { length table.now ≡ 2 ^ case.n }
    requires n_in_bounds { 2 ^ case.n ≤ length scratch.old }
    ensures value { result ≡ answer_3 case table.now }
    ensures scratch_after { scratch.new ≡ scratch_3 case scratch.old }
{
    let lookup = Lookup { case, table };
    let b = case.b as usize;
    let mut registers: [u8; 2] = [0, 0];
    prepare(lookup, scratch);
    select(lookup, scratch, &mut registers);
    registers[b]
}

// Every byte below Q becomes 1 - b, then byte r3 becomes b.
fn prepare(lookup: Lookup, scratch: &mut [u8])
    requires n_in_bounds { 2 ^ lookup.case.n ≤ length scratch.old }
    ensures scratch_after { scratch.new ≡ scratch_3 lookup.entry.case scratch.old }
    ensures scratch_after_2 { take (Q lookup.entry.case) scratch.new ≡ comparison_table lookup.entry.case }
{
    let case = lookup.case;
    let size = bits::power(case.n) as u16;
    let r3 = case.r3 as usize;
    let b = case.b as u8;
    let other = 1 - b;
    for i in 0..size {
        scratch[i as usize] = other;
    }
    scratch[r3] = b;
}

// Every turn stores its entry, in the register that the scratch names. The registers stay behind a reference: a copy would load both at once.
// `zero` is 0, and the compiler does not know it.
fn select(lookup: Lookup, scratch: &[u8], registers: &mut [u8; 2])
    requires scratch_value { take (Q lookup.case) scratch.now ≡ comparison_table lookup.case }
    requires registers_value { registers.old ≡ 0 ∷ 0 ∷ [] }
    ensures { registers.new ≡ registers_3 (Q lookup.entry.case) lookup.entry.case lookup.entry.table.now }
{
    let turns = bits::power(lookup.case.n) as u16;
    let zero = lookup::unknown_zero(lookup.case.r3);
    for a in 0..turns {
        let at = place(lookup, a);
        let cmp = scratch[at] as usize;
        lookup::put_masked_entry(lookup.case, lookup.table, a, registers, cmp, zero);
    }
}

// Which scratch byte turn a compares: ((r1 ⊕ a) ⊕ r3) ⊕ r2, in this order.
fn place(lookup: Lookup, a: u16) -> usize
    requires a_bound { a < 2 ^ lookup.case.n }
    ensures { result ≡ place_3 lookup.entry.case a }
{
    let case = lookup.case;
    let twice = lookup::value_barrier(((case.r1 ^ a as u32) ^ case.r3) as u8, case.r3);
    (twice ^ case.r2 as u8) as usize
}
