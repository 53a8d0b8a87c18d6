// The run of method 3 with a log: the same lookup, and every value that it handles stands in the log.
ghost use Rattle.std.specs.Prelude.{◌≡◌, [], ◌∷◌, ◌+◌, ◌*◌, ◌^◌, ◌≤◌, ◌<◌, length, take, get_or};
ghost use Rattle.buffers.specs.Written.{written, in_front};
ghost use Rattle.log_entries.specs.Entries.{entries};
ghost use Rattle.lookup.specs.Case.{Q};
ghost use Rattle.lookup.specs.Bounded.{Bounded};
ghost use Rattle.lookup.specs.Layout.{pass_lines, lines, layout_size};
ghost use Rattle.lookup.specs.Row.{kinds, values as row_values, row_entry};
ghost use Rattle.lookup.specs.Method3.{comparison_table, scratch_3, registers_3, answer_3, head_3, pass_3, end_3, method_3};

use crate::parts::PARTS;
use lookup::{Case, Lookup};

// The calls have checked the case and measured the buffers, so it has a `requires`, and so have its parts.
pub fn run(case: Case, table: &[u8], scratch: &mut [u8], log: &mut [u32]) -> u8
    requires bounded { Bounded case }
    requires table_len { length table.now ≡ 2 ^ case.n }
    requires n_in_bounds { 2 ^ case.n ≤ length scratch.old }
    requires layout_in_bounds { layout_size (2 ^ case.n) method_3.layout ≤ length log.old }
    ensures value { result ≡ answer_3 case table.now }
    ensures scratch_after { scratch.new ≡ scratch_3 case scratch.old }
    ensures log_after { log.new ≡ in_front (lines (row_entry case table.now) (Q case) method_3.layout)
        log.old }
{
    let lookup = Lookup { case, table };
    let mut registers: [u8; 2] = [0, 0];
    put_first(lookup, log);
    crate::prepare(lookup, scratch);
    select(lookup, scratch, &mut registers, log);
    put_last(lookup, &registers, log)
}

fn put_first(lookup: Lookup, log: &mut [u32])
    requires head_3_in_bounds { length head_3 ≤ length log.old }
    ensures { log.new ≡ written log.old 0 (entries (kinds head_3) (row_values lookup.entry.case [] 0 head_3)) }
{
    PARTS.put_head(log, head(lookup));
}

// The answer is read from register b.
fn put_last(lookup: Lookup, registers: &[u8; 2], log: &mut [u32]) -> u8
    requires layout_in_bounds { layout_size (2 ^ lookup.case.n) method_3.layout ≤ length log.old }
    ensures value { result ≡ get_or registers.now lookup.entry.case.b 0 }
    ensures log_after { log.new ≡ written log.old (length head_3 + length pass_3 * 2 ^ lookup.entry.case.n)
        (entries (kinds end_3) (lookup.entry.case.b ∷ get_or registers.now lookup.entry.case.b 0 ∷ [])) }
{
    let case = lookup.case;
    let b = case.b as usize;
    let turns = bits::power(case.n) as u16;
    let answer = registers[b];
    PARTS.put_end(log, turns, [case.b as u8, answer]);
    answer
}

fn select(lookup: Lookup, scratch: &[u8], registers: &mut [u8; 2], log: &mut [u32])
    requires scratch_value { take (Q lookup.case) scratch.now ≡ comparison_table lookup.case }
    requires registers_value { registers.old ≡ 0 ∷ 0 ∷ [] }
    requires layout_in_bounds { layout_size (2 ^ lookup.case.n) method_3.layout ≤ length log.old }
    ensures registers_after { registers.new ≡ registers_3 (Q lookup.entry.case) lookup.entry.case lookup.entry.table.now }
    ensures log_after { log.new ≡ written log.old (length head_3)
        (pass_lines (row_entry lookup.entry.case lookup.entry.table.now) (Q lookup.entry.case) pass_3) }
{
    let turns = bits::power(lookup.case.n) as u16;
    for a in 0..turns {
        let values = turn(lookup, scratch, a);
        let cmp = values[4] as usize;
        registers[cmp] = values[8];
        PARTS.put_turn(log, a, values);
    }
}

// The head's values, in the order of the log.
fn head(lookup: Lookup) -> [u8; 8]
    ensures { result ≡ row_values lookup.entry.case [] 0 head_3 }
{
    let case = lookup.case;
    [
        case.x0 as u8,
        case.r1 as u8,
        case.r2 as u8,
        case.s1 as u8,
        case.s2 as u8,
        case.b as u8,
        case.r3 as u8,
        1 - case.b as u8,
    ]
}

// Turn a's values, in the order of the log.
fn turn(lookup: Lookup, scratch: &[u8], a: u16) -> [u8; 9]
    requires scratch_value { take (Q lookup.case) scratch.now ≡ comparison_table lookup.case }
    requires a_bound { a < 2 ^ lookup.case.n }
    ensures { result ≡ row_values lookup.entry.case lookup.entry.table.now a pass_3 }
{
    let case = lookup.case;
    let once = case.r1 as usize ^ a as usize;
    let twice = once ^ case.r3 as usize;
    let at = twice ^ case.r2 as usize;
    let cmp = scratch[at];
    let from = case.x0 as usize ^ a as usize;
    let entry = lookup.table[from];
    let first = entry ^ case.s1 as u8;
    [
        a as u8,
        once as u8,
        twice as u8,
        at as u8,
        cmp,
        from as u8,
        entry,
        first,
        first ^ case.s2 as u8,
    ]
}
