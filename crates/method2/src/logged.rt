// The run of method 2 with a log: the same lookup, and every value that it handles stands in the log.
ghost use Rattle.std.specs.Prelude.{◌≡◌, [], ◌∷◌, ◌+◌, ◌*◌, ◌^◌, ◌≤◌, ◌<◌, length, get_or};
ghost use Rattle.buffers.specs.Written.{written, in_front};
ghost use Rattle.log_entries.specs.Entries.{entries};
ghost use Rattle.lookup.specs.Case.{Q};
ghost use Rattle.lookup.specs.Bounded.{Bounded};
ghost use Rattle.lookup.specs.Layout.{pass_lines, lines, layout_size};
ghost use Rattle.lookup.specs.Row.{kinds, values as row_values, row_entry};
ghost use Rattle.lookup.specs.Method2.{scratch_2, answer_2, head_2, pass_2, end_2, method_2};

use crate::parts::PARTS;
use lookup::{Case, Lookup};

// The calls have checked the case and measured the buffers, so it has a `requires`, and so have its parts.
pub fn run(case: Case, table: &[u8], scratch: &mut [u8], log: &mut [u32]) -> u8
    requires bounded { Bounded case }
    requires table_len { length table.now ≡ 2 ^ case.n }
    requires n_in_bounds { 2 ^ case.n ≤ length scratch.old }
    requires layout_in_bounds { layout_size (2 ^ case.n) method_2.layout ≤ length log.old }
    ensures value { result ≡ answer_2 case table.now }
    ensures scratch_after { scratch.new ≡ scratch_2 (Q case) case table.now scratch.old }
    ensures log_after { log.new ≡ in_front (lines (row_entry case table.now) (Q case) method_2.layout)
        log.old }
{
    let lookup = Lookup { case, table };
    put_first(lookup, log);
    fill(lookup, scratch, log);
    put_last(lookup, scratch, log)
}

fn put_first(lookup: Lookup, log: &mut [u32])
    requires head_2_in_bounds { length head_2 ≤ length log.old }
    ensures { log.new ≡ written log.old 0 (entries (kinds head_2) (row_values lookup.entry.case [] 0 head_2)) }
{
    PARTS.put_head(log, head(lookup));
}

// The answer is read from the filled scratch.
fn put_last(lookup: Lookup, scratch: &[u8], log: &mut [u32]) -> u8
    requires n_in_bounds { 2 ^ lookup.case.n ≤ length scratch.now }
    requires layout_in_bounds { layout_size (2 ^ lookup.case.n) method_2.layout ≤ length log.old }
    ensures value { result ≡ get_or scratch.now lookup.entry.case.r3 0 }
    ensures log_after { log.new ≡ written log.old (length head_2 + length pass_2 * 2 ^ lookup.entry.case.n)
        (entries (kinds end_2) (lookup.entry.case.r3 ∷ get_or scratch.now lookup.entry.case.r3 0 ∷ [])) }
{
    let case = lookup.case;
    let r3 = case.r3 as usize;
    let turns = bits::power(case.n) as u16;
    let answer = scratch[r3];
    PARTS.put_end(log, turns, [case.r3 as u8, answer]);
    answer
}

fn fill(lookup: Lookup, scratch: &mut [u8], log: &mut [u32])
    requires n_in_bounds { 2 ^ lookup.case.n ≤ length scratch.old }
    requires layout_in_bounds { layout_size (2 ^ lookup.case.n) method_2.layout ≤ length log.old }
    ensures scratch_after { scratch.new ≡ scratch_2 (Q lookup.entry.case) lookup.entry.case lookup.entry.table.now scratch.old }
    ensures log_after { log.new ≡ written log.old (length head_2)
        (pass_lines (row_entry lookup.entry.case lookup.entry.table.now) (Q lookup.entry.case) pass_2) }
{
    let turns = bits::power(lookup.case.n) as u16;
    for a in 0..turns {
        let values = turn(lookup, a);
        let to = values[1] as usize;
        scratch[to] = values[5];
        PARTS.put_turn(log, a, values);
    }
}

// The head's values, in the order of the log.
fn head(lookup: Lookup) -> [u8; 8]
    ensures { result ≡ row_values lookup.entry.case [] 0 head_2 }
{
    let case = lookup.case;
    let mixed = case.r1 ^ case.r3;
    [
        case.x0 as u8,
        case.r1 as u8,
        case.r2 as u8,
        case.s1 as u8,
        case.s2 as u8,
        case.r3 as u8,
        mixed as u8,
        (mixed ^ case.r2) as u8,
    ]
}

// Turn a's values, in the order of the log.
fn turn(lookup: Lookup, a: u16) -> [u8; 6]
    requires a_bound { a < 2 ^ lookup.case.n }
    ensures { result ≡ row_values lookup.entry.case lookup.entry.table.now a pass_2 }
{
    let case = lookup.case;
    let to = a as usize ^ crate::r_prime(lookup);
    let from = case.x0 as usize ^ a as usize;
    let entry = lookup.table[from];
    let first = entry ^ case.s1 as u8;
    [
        a as u8,
        to as u8,
        from as u8,
        entry,
        first,
        first ^ case.s2 as u8,
    ]
}
