// Method 5, of Schramm and Paar: the table is copied to the first half of the scratch, under one mask of its index and one of its entries,
// from there to the second half under the others, and the answer is read there.
// The calls have checked the case and measured the buffers, so the runs have a `requires`.
#![tactic(auto)]

ghost use Rattle.std.specs.Prelude.{◌≡◌, ◌+◌, ◌*◌, ◌^◌, ◌≤◌, ◌<◌, length, get_or};
ghost use Rattle.bits.specs.Xor.{◌⊕◌};
ghost use Rattle.buffers.specs.Written.{written};
ghost use Rattle.lookup.specs.Case.{Q};
ghost use Rattle.lookup.specs.Bounded.{Bounded};
ghost use Rattle.lookup.specs.Method5.{copied as method5_copied, first_half, second_half, scratch_5, answer_5};

use lookup::{Case, Lookup};

pub mod logged;
mod parts;

pub use parts::log_length;

// A run without a log: both halves are filled, and the answer is byte x0 of the second.
pub fn run(case: Case, table: &[u8], scratch: &mut [u8]) -> u8
    requires bounded { Bounded case }
    requires table_len { length table.now ≡ 2 ^ case.n }
    requires n_in_bounds { 2 * 2 ^ case.n ≤ length scratch.old }
    ensures value { result ≡ answer_5 case table.now }
    ensures scratch_after { scratch.new ≡ scratch_5 case table.now scratch.old }
{
    let lookup = Lookup { case, table };
    fill(lookup, scratch);
    answer(lookup, scratch)
}

fn fill(lookup: Lookup, scratch: &mut [u8])
    requires n_in_bounds { 2 * 2 ^ lookup.case.n ≤ length scratch.old }
    ensures { scratch.new ≡ scratch_5 lookup.entry.case lookup.entry.table.now scratch.old }
{
    fill_first(lookup, scratch);
    fill_second(lookup, scratch);
}

fn fill_first(lookup: Lookup, scratch: &mut [u8])
    requires n_in_bounds { 2 * 2 ^ lookup.case.n ≤ length scratch.old }
    ensures { scratch.new ≡ written scratch.old 0 (first_half lookup.entry.case lookup.entry.table.now) }
{
    let case = lookup.case;
    let turns = bits::power(case.n) as u16;
    for a in 0..turns {
        scratch[a as usize] = copied(lookup.table, a, case.r1, case.s1);
    }
}

// The first half stands in front of the bytes that are written, so no turn touches what a later one reads.
fn fill_second(lookup: Lookup, scratch: &mut [u8])
    requires n_in_bounds { 2 * 2 ^ lookup.case.n ≤ length scratch.old }
    ensures { scratch.new ≡ written scratch.old (Q lookup.entry.case) (second_half lookup.entry.case scratch.old) }
{
    let case = lookup.case;
    let turns = bits::power(case.n) as u16;
    for a in 0..turns {
        let entry = copied(scratch, a, case.r2, case.s2);
        scratch[turns as usize + a as usize] = entry;
    }
}

// What turn a copies: the entry at a ⊕ r, with s. r is a mask of indices, s of entries.
fn copied(from: &[u8], a: u16, r: u32, s: u32) -> u8
    requires r_in_bounds { a ⊕ r < length from.now }
    requires s_bound { s < 256 }
    ensures { result ≡ method5_copied r s from.now a }
{
    let index = a as usize ^ r as usize;
    from[index] ^ s as u8
}

// Byte x0 of the second half.
fn answer(lookup: Lookup, scratch: &[u8]) -> u8
    requires n_in_bounds { 2 * 2 ^ lookup.case.n ≤ length scratch.now }
    ensures { result ≡ get_or scratch.now (2 ^ lookup.entry.case.n + lookup.entry.case.x0) 0 }
{
    let half = bits::power(lookup.case.n) as usize;
    scratch[half + lookup.case.x0 as usize]
}
