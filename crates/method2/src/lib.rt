// Method 2: the table is copied to the scratch, masked and in another order, and the answer is read there.
// The calls have checked the case and measured the buffers, so the runs have a `requires`.
#![tactic(auto)]

ghost use Rattle.std.specs.Prelude.{◌≡◌, ◌^◌, ◌≤◌, length};
ghost use Rattle.lookup.specs.Case.{Q};
ghost use Rattle.lookup.specs.Bounded.{Bounded};
ghost use Rattle.lookup.specs.Method2.{r_prime as method2_r_prime, scratch_2, answer_2};

use lookup::{Case, Lookup};

pub mod logged;
mod parts;

pub use parts::log_length;

// A run without a log: the scratch is filled, and the answer is its byte r3.
pub fn run(case: Case, table: &[u8], scratch: &mut [u8]) -> u8
    requires bounded { Bounded case }
    requires table_len { length table.now ≡ 2 ^ case.n }
    requires n_in_bounds { 2 ^ case.n ≤ length scratch.old }
    ensures value { result ≡ answer_2 case table.now }
    ensures scratch_after { scratch.new ≡ scratch_2 (Q case) case table.now scratch.old }
{
    let lookup = Lookup { case, table };
    let r3 = case.r3 as usize;
    fill(lookup, scratch);
    scratch[r3]
}

// `zero` is 0, and the compiler does not know it.
fn fill(lookup: Lookup, scratch: &mut [u8])
    requires n_in_bounds { 2 ^ lookup.case.n ≤ length scratch.old }
    ensures { scratch.new ≡ scratch_2 (Q lookup.entry.case) lookup.entry.case lookup.entry.table.now scratch.old }
{
    let case = lookup.case;
    let table = lookup.table;
    let turns = bits::power(case.n) as u16;
    let first = r_prime(lookup);
    let zero = lookup::unknown_zero(case.r3);
    for a in 0..turns {
        let to = a as usize ^ first;
        lookup::put_masked_entry(case, table, a, scratch, to, zero);
    }
}

// Where turn 0's entry goes; turn a's goes to a ⊕ this. r1 and r3 are joined first.
fn r_prime(lookup: Lookup) -> usize
    ensures { result ≡ method2_r_prime lookup.entry.case }
{
    let case = lookup.case;
    let mixed = lookup::value_barrier((case.r1 ^ case.r3) as u8, case.r3);
    (mixed ^ case.r2 as u8) as usize
}
