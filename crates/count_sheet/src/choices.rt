// The runs of a count: every choice of masks by its number, whose bits are the masks. The call has checked the probes and measured the
// buffers, which most functions here require.
ghost use Rattle.std.specs.Prelude.{◌≡◌, true, ◌+◌, ◌*◌, ◌^◌, ◌≤◌, ◌<◌, length, replicate};
ghost use Rattle.counting.specs.Choice.{total as choice_total};
ghost use Rattle.counting.specs.Numbered.{numbered, choice_of};
ghost use Rattle.table.specs.Balanced.{at};
ghost use Rattle.lookup.specs.Methods.{known as methods_known};
ghost use Rattle.lookup.specs.Call.{log_of, log_length, scratch_length};
ghost use Rattle.secrecy.specs.Count.{single, chosen_case as count_chosen_case};
ghost use Rattle.count_sheet.specs.Refusals.{value_width};
ghost use Rattle.count_sheet.specs.Sheet.{counts};
ghost use Rattle.count_sheet.specs.Runs.{Countable, numbered_case as runs_numbered_case, place_of as runs_place_of, one_more};

use crate::ProbePair;
use lookup::Case;

// Adds every choice to a sheet of zeros.
#[tactic(auto, using(crate::proofs::Masks::masks_room, crate::proofs::Masks::bits_room, crate::proofs::Tallying::tallied_begins))]
pub fn count_all(
    pair: ProbePair,
    table: &[u8],
    scratch: &mut [u8],
    log: &mut [u32],
    sheet: &mut [u32],
)
    requires countable { Countable pair table.now }
    requires scratch_len { length scratch.old ≡ scratch_length pair.method pair.n }
    requires log_len { length log.old ≡ log_length pair.method pair.n }
    requires sheet_value { sheet.old ≡ replicate (2 ^ (2 * value_width pair)) 0 }
    ensures { sheet.new ≡ counts table.now pair }
{
    let choices = bits::power(total(methods::mask_widths(pair.method, pair.n, pair.m)));
    for number in 0..choices {
        count(pair, number, table, scratch, log, sheet);
    }
}

// Makes the logged call of one choice, on scratch that is cleared, and counts the values that its log shows. The call is accepted, so
// its answer tells nothing here.
#[tactic(auto, using(crate::proofs::Running::one_choice))]
fn count(
    pair: ProbePair,
    number: u32,
    table: &[u8],
    scratch: &mut [u8],
    log: &mut [u32],
    sheet: &mut [u32],
)
    requires countable { Countable pair table.now }
    requires scratch_len { length scratch.old ≡ scratch_length pair.method pair.n }
    requires log_len { length log.old ≡ log_length pair.method pair.n }
    requires sheet_len { length sheet.old ≡ 2 ^ (2 * value_width pair) }
    requires table_bound { at sheet.old (runs_place_of pair (log_of (runs_numbered_case pair number) table.now)) < 65536 }
    ensures { sheet.new ≡ one_more (runs_place_of pair (log_of (runs_numbered_case pair number) table.now))
        sheet.old }
{
    let case = numbered_case(pair, number);
    buffers::clear(scratch);
    let _ = calls::logged(case, table, scratch, log);
    let place = place_of(pair, log);
    sheet[place] += 1;
}

// The case of a choice's number.
#[tactic(auto, using(crate::proofs::Masks::masks_room, crate::proofs::Masks::case_numbered))]
fn numbered_case(pair: ProbePair, number: u32) -> Case
    requires method_value { methods_known pair.method ≡ true }
    requires n_bound { (pair.n ≤ 3) × (pair.m ≤ 3) }
    ensures { result ≡ runs_numbered_case pair number }
{
    let widths = methods::mask_widths(pair.method, pair.n, pair.m);
    chosen_case(pair, masks(widths, number))
}

// Where the pair of values that a log shows is counted.
#[tactic(auto, using(crate::proofs::Places::width_told, crate::proofs::Places::place_told))]
fn place_of(pair: ProbePair, log: &[u32]) -> usize
    requires pair_bound { value_width pair ≤ 3 }
    requires first_in_bounds { pair.first < length log.now }
    requires second_in_bounds { pair.second < length log.now }
    ensures { result ≡ runs_place_of pair log.now }
{
    let side = bits::power(crate::larger(pair.n, pair.m));
    let first = log_entries::value(log[pair.first as usize]);
    let second = log_entries::value(log[pair.second as usize]);
    entry_of(first, side, second)
}

// The entry of a row and a column. Products of 32-bit numbers fit 64 bits.
fn entry_of(row: u32, side: u32, column: u32) -> usize
    ensures { result ≡ row * side + column }
{
    row as usize * side as usize + column as usize
}

// The case of a choice: x0 is the secret joined with r1 and r2.
fn chosen_case(pair: ProbePair, masks: [u32; 6]) -> Case
    ensures { result ≡ count_chosen_case single pair.method pair.n pair.m pair.secret (choice_of masks) }
{
    Case {
        method: pair.method,
        n: pair.n,
        m: pair.m,
        x0: pair.secret ^ masks[0] ^ masks[1],
        r1: masks[0],
        r2: masks[1],
        s1: masks[3],
        s2: masks[4],
        r3: masks[2],
        b: masks[5],
    }
}

// The masks of a choice by its number: each takes as many of the lowest bits that are left as it is wide.
#[tactic(auto, using(crate::proofs::Masks::one_small))]
fn masks(widths: [u32; 6], number: u32) -> [u32; 6]
    requires { choice_total widths < 32 }
    ensures { result ≡ numbered widths number }
{
    let mut masks = [0u32; 6];
    let mut left = number;
    for i in 0..6 {
        let limit = bits::power(widths[i]);
        masks[i] = left % limit;
        left = left / limit;
    }
    masks
}

// The widths together.
#[tactic(auto, using(crate::proofs::Masks::summed_begins, crate::proofs::Masks::summed_fits, crate::proofs::Masks::summed_turns))]
fn total(widths: [u32; 6]) -> u32
    requires { choice_total widths < 32 }
    ensures { result ≡ choice_total widths }
{
    let mut sum = 0;
    for width in widths {
        sum += width;
    }
    sum
}
