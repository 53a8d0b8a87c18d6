// The refusals of the count sheet, in their order.
ghost use Rattle.refusals.specs.Numbers.{refusal_of};
ghost use Rattle.std.specs.Prelude.{◌≡◌, ◌≤◌};
ghost use Rattle.refusals.specs.Checks.{first_of};
ghost use Rattle.count_sheet.specs.Refusals.{pair_checks, buffer_checks, sheet_checks, count_refusal};

use crate::ProbePair;
use refusals::Refusal;

#[tactic(auto, using(crate::proofs::Checking::input_most))]
pub fn refused(
    pair: ProbePair,
    table: &[u8],
    scratch: &[u8],
    log: &[u32],
    sheet: &[u32],
) -> Result<(), Refusal>
    ensures { refusal_of result ≡ count_refusal pair table.now scratch.now log.now sheet.now }
{
    refused_pair(pair, table)?;
    refused_buffers(pair, scratch, log)?;
    refused_sheet(pair, sheet)
}

// 2 to 7, and 10
#[tactic(auto, using(crate::proofs::Checking::pair_parts))]
fn refused_pair(pair: ProbePair, table: &[u8]) -> Result<(), Refusal>
    ensures { refusal_of result ≡ first_of (pair_checks pair table.now) }
{
    if !methods::known(pair.method) {
        return Err(Refusal::UnknownMethod);
    }
    table::table_refusal(pair.n, pair.m, table)?;
    if bits::power(pair.n) <= pair.secret {
        return Err(Refusal::Input);
    }
    Ok(())
}

// 13 and 14. The width has been checked, so it has a `requires`.
#[tactic(auto, using(crate::proofs::Checking::at_13, crate::proofs::Checking::at_14, crate::proofs::Checking::at_buffers))]
fn refused_buffers(pair: ProbePair, scratch: &[u8], log: &[u32]) -> Result<(), Refusal>
    requires { pair.n ≤ 8 }
    ensures { refusal_of result ≡ first_of (buffer_checks pair scratch.now log.now) }
{
    if scratch.len() < methods::scratch_length(pair.method, pair.n) as usize {
        return Err(Refusal::ShortScratch);
    }
    if log.len() < methods::log_length(pair.method, pair.n) {
        return Err(Refusal::ShortLog);
    }
    Ok(())
}

// 15 to 17
#[tactic(auto, using(crate::proofs::Checking::sheet_parts))]
fn refused_sheet(pair: ProbePair, sheet: &[u32]) -> Result<(), Refusal>
    ensures { refusal_of result ≡ first_of (sheet_checks pair sheet.now) }
{
    if 3 < pair.n {
        return Err(Refusal::LargeWidth);
    }
    if 3 < pair.m {
        return Err(Refusal::LargeWidth);
    }
    let entries = methods::log_length(pair.method, pair.n);
    if entries <= pair.first as usize {
        return Err(Refusal::Position);
    }
    if entries <= pair.second as usize {
        return Err(Refusal::Position);
    }
    if sheet.len() < crate::sheet_length(pair.n, pair.m) {
        return Err(Refusal::ShortSheet);
    }
    Ok(())
}
