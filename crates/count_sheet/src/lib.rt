// The count sheet: how often two positions of a log show each pair of values, over every choice of masks.
#![tactic(auto)]

ghost use Rattle.refusals.specs.Numbers.{refusal_of};
ghost use Rattle.std.specs.Prelude.{◌≡◌, length, replicate, max, ◌*◌, ◌^◌, ◌≤◌};
ghost use Rattle.lookup.specs.Call.{log_length as call_log_length, scratch_length as call_scratch_length};
ghost use Rattle.count_sheet.specs.Refusals.{value_width, count_refusal};
ghost use Rattle.count_sheet.specs.Sheet.{counts, sheet_left, scratch_left, log_left};
ghost use Rattle.count_sheet.specs.Runs.{Countable};

mod checks;
mod choices;

use refusals::Refusal;

// What is probed: a method's log for a secret, at two positions.
#[derive(Clone, Copy)]
pub struct ProbePair {
    pub method: u32,
    pub n: u32,
    pub m: u32,
    pub secret: u32,
    pub first: u32,
    pub second: u32,
}

// Runs every choice of masks, and counts the values at both positions: with k the larger of n and m, the count for u and v goes to
// u * 2^k + v of the sheet. The runs' scratch and log are zero afterwards. It takes the secret itself, so it is for the
// bench alone.
#[tactic(auto, using(crate::proofs::Leaving::buffers_left))]
pub fn count_sheet(
    pair: ProbePair,
    table: &[u8],
    scratch: &mut [u8],
    log: &mut [u32],
    sheet: &mut [u32],
) -> Result<(), Refusal>
    ensures value { refusal_of result ≡ count_refusal pair table.now scratch.old log.old sheet.old }
    ensures sheet_after { sheet.new ≡ sheet_left pair table.now scratch.old log.old
        sheet.old }
    ensures scratch_after { scratch.new ≡ scratch_left pair table.now scratch.old log.old
        sheet.old }
    ensures log_after { log.new ≡ log_left pair table.now scratch.old log.old
        sheet.old }
{
    checks::refused(pair, table, scratch, log, sheet)?;
    let bytes = methods::scratch_length(pair.method, pair.n) as usize;
    let entries = methods::log_length(pair.method, pair.n);
    let counts = sheet_length(pair.n, pair.m);
    fill(
        pair,
        table,
        &mut scratch[..bytes],
        &mut log[..entries],
        &mut sheet[..counts],
    );
    Ok(())
}

// Scratch, log and sheet are as long as is needed, and no longer.
fn fill(pair: ProbePair, table: &[u8], scratch: &mut [u8], log: &mut [u32], sheet: &mut [u32])
    requires countable { Countable pair table.now }
    requires scratch_len { length scratch.old ≡ call_scratch_length pair.method pair.n }
    requires log_len { length log.old ≡ call_log_length pair.method pair.n }
    requires sheet_len { length sheet.old ≡ 2 ^ (2 * value_width pair) }
    ensures sheet_after { sheet.new ≡ counts table.now pair }
    ensures scratch_after { scratch.new ≡ replicate (length scratch.old) 0 }
    ensures log_after { log.new ≡ replicate (length log.old) 0 }
{
    buffers::clear_numbers(sheet);
    choices::count_all(pair, table, scratch, log, sheet);
    buffers::clear(scratch);
    buffers::clear_numbers(log);
}

// 2^(2k). The widths have been checked, so it has a `requires`.
fn sheet_length(n: u32, m: u32) -> usize
    requires { max n m ≤ 8 }
    ensures { result ≡ 2 ^ (2 * max n m) }
{
    bits::power(2 * larger(n, m)) as usize
}

// k, `value_width` of the definitions.
pub fn larger(n: u32, m: u32) -> u32
    ensures { result ≡ max n m }
{
    n.max(m)
}
