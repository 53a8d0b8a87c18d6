// The run of method 5 with a log: the same lookup, and every value that it handles stands in the log.
ghost use Rattle.std.specs.Prelude.{◌≡◌, [], ◌∷◌, ◌+◌, ◌*◌, ◌^◌, ◌≤◌, ◌<◌, length, get_or};
ghost use Rattle.bits.specs.Xor.{◌⊕◌};
ghost use Rattle.buffers.specs.Written.{written, in_front};
ghost use Rattle.log_entries.specs.Entries.{entries};
ghost use Rattle.table.specs.Balanced.{at};
ghost use Rattle.lookup.specs.Case.{Q};
ghost use Rattle.lookup.specs.Bounded.{Bounded};
ghost use Rattle.lookup.specs.Layout.{pass_lines, passes_lines, lines, layout_size};
ghost use Rattle.lookup.specs.Row.{kinds, values as row_values, row_entry};
ghost use Rattle.lookup.specs.Method5.{copied, first_half, second_half, scratch_5, answer_5, head_5, first_pass_5, half_pass_5, end_5, method_5};

use crate::parts::{PARTS, put_first_turn, put_second_turn};
use lookup::{Case, Lookup};

// The calls have checked the case and measured the buffers, so it has a `requires`, and so have its parts.
pub fn run(case: Case, table: &[u8], scratch: &mut [u8], log: &mut [u32]) -> u8
    requires bounded { Bounded case }
    requires table_len { length table.now ≡ 2 ^ case.n }
    requires n_in_bounds { 2 * 2 ^ case.n ≤ length scratch.old }
    requires layout_in_bounds { layout_size (2 ^ case.n) method_5.layout ≤ length log.old }
    ensures value { result ≡ answer_5 case table.now }
    ensures scratch_after { scratch.new ≡ scratch_5 case table.now scratch.old }
    ensures log_after { log.new ≡ in_front (lines (row_entry case table.now) (Q case) method_5.layout)
        log.old }
{
    let lookup = Lookup { case, table };
    put_first(lookup, log);
    fill(lookup, scratch, log);
    put_last(lookup, scratch, log)
}

fn put_first(lookup: Lookup, log: &mut [u32])
    requires head_5_in_bounds { length head_5 ≤ length log.old }
    ensures { log.new ≡ written log.old 0 (entries (kinds head_5) (row_values lookup.entry.case [] 0 head_5)) }
{
    PARTS.put_head(log, head(lookup));
}

fn fill(lookup: Lookup, scratch: &mut [u8], log: &mut [u32])
    requires n_in_bounds { 2 * 2 ^ lookup.case.n ≤ length scratch.old }
    requires layout_in_bounds { layout_size (2 ^ lookup.case.n) method_5.layout ≤ length log.old }
    ensures scratch_after { scratch.new ≡ scratch_5 lookup.entry.case lookup.entry.table.now scratch.old }
    ensures log_after { log.new ≡ written log.old (length head_5)
        (passes_lines (row_entry lookup.entry.case lookup.entry.table.now) (Q lookup.entry.case) method_5.layout.passes) }
{
    fill_first(lookup, scratch, log);
    fill_second(lookup, scratch, log);
}

fn fill_first(lookup: Lookup, scratch: &mut [u8], log: &mut [u32])
    requires n_in_bounds { 2 * 2 ^ lookup.case.n ≤ length scratch.old }
    requires layout_in_bounds { layout_size (2 ^ lookup.case.n) method_5.layout ≤ length log.old }
    ensures scratch_after { scratch.new ≡ written scratch.old 0 (first_half lookup.entry.case lookup.entry.table.now) }
    ensures log_after { log.new ≡ written log.old (length head_5)
        (pass_lines (row_entry lookup.entry.case lookup.entry.table.now) (Q lookup.entry.case) first_pass_5) }
{
    let turns = bits::power(lookup.case.n) as u16;
    for a in 0..turns {
        let values = first_turn(lookup, a);
        scratch[a as usize] = values[3];
        put_first_turn(log, a, values);
    }
}

fn fill_second(lookup: Lookup, scratch: &mut [u8], log: &mut [u32])
    requires n_in_bounds { 2 * 2 ^ lookup.case.n ≤ length scratch.old }
    requires layout_in_bounds { layout_size (2 ^ lookup.case.n) method_5.layout ≤ length log.old }
    ensures scratch_after { scratch.new ≡ written scratch.old (Q lookup.entry.case) (second_half lookup.entry.case scratch.old) }
    ensures log_after { log.new ≡ written log.old (length head_5 + length first_pass_5 * 2 ^ lookup.entry.case.n)
        (pass_lines (row_entry lookup.entry.case scratch.old) (Q lookup.entry.case) half_pass_5) }
{
    let turns = bits::power(lookup.case.n) as u16;
    for a in 0..turns {
        let values = second_turn(lookup, scratch, a);
        scratch[turns as usize + a as usize] = values[3];
        put_second_turn(log, turns, a, values);
    }
}

// The answer is read from the filled scratch.
fn put_last(lookup: Lookup, scratch: &[u8], log: &mut [u32]) -> u8
    requires n_in_bounds { 2 * 2 ^ lookup.case.n ≤ length scratch.now }
    requires layout_in_bounds { layout_size (2 ^ lookup.case.n) method_5.layout ≤ length log.old }
    ensures value { result ≡ get_or scratch.now (2 ^ lookup.entry.case.n + lookup.entry.case.x0) 0 }
    ensures log_after { log.new ≡ written log.old (length head_5 + (length first_pass_5 + length half_pass_5) * 2 ^ lookup.entry.case.n)
        (entries (kinds end_5) (lookup.entry.case.x0 ∷ get_or scratch.now (2 ^ lookup.entry.case.n + lookup.entry.case.x0) 0 ∷ [])) }
{
    let turns = bits::power(lookup.case.n) as u16;
    let answer = crate::answer(lookup, scratch);
    PARTS.put_end(log, turns, [lookup.case.x0 as u8, answer]);
    answer
}

// The head's values, in the order of the log.
fn head(lookup: Lookup) -> [u8; 5]
    ensures { result ≡ row_values lookup.entry.case [] 0 head_5 }
{
    let case = lookup.case;
    [
        case.x0 as u8,
        case.r1 as u8,
        case.r2 as u8,
        case.s1 as u8,
        case.s2 as u8,
    ]
}

// The values of turn a of the first pass, and of the second, in the order of the log.
fn first_turn(lookup: Lookup, a: u16) -> [u8; 4]
    requires a_bound { a < 2 ^ lookup.case.n }
    ensures { result ≡ row_values lookup.entry.case lookup.entry.table.now a first_pass_5 }
{
    turn(lookup.table, a, lookup.case.r1, lookup.case.s1)
}

fn second_turn(lookup: Lookup, half: &[u8], a: u16) -> [u8; 4]
    requires n_in_bounds { 2 * 2 ^ lookup.case.n ≤ length half.now }
    requires a_bound { a < 2 ^ lookup.case.n }
    ensures { result ≡ row_values lookup.entry.case half.now a half_pass_5 }
{
    turn(half, a, lookup.case.r2, lookup.case.s2)
}

// A turn of either, under its masks of index and entry.
fn turn(from: &[u8], a: u16, r: u32, s: u32) -> [u8; 4]
    requires a_bound { a < 256 }
    requires r_bound { a ⊕ r < 256 }
    requires r_in_bounds { a ⊕ r < length from.now }
    requires s_bound { s < 256 }
    ensures { result ≡ (a ∷ (a ⊕ r) ∷ at from.now (a ⊕ r) ∷ copied r s from.now a ∷ []) }
{
    let index = a as usize ^ r as usize;
    let entry = from[index];
    [a as u8, index as u8, entry, entry ^ s as u8]
}
