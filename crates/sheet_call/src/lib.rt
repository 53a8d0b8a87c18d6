// The call that a case sheet asks for: the sheet is read, and its case refused or looked up with a log.
#![tactic(auto)]

ghost use Rattle.std.specs.Prelude.{◌≡◌};
ghost use Rattle.lookup.specs.Called.{handed_call};
ghost use Rattle.sheet_call.specs.Call.{reply, log_left};

use case_sheet::Sheet;
use lookup::Answered;
use refusals::Refusal;

// Hands back what refuses the input, or the answer share and the count of the log's entries; these stand in front in the log, which is long
// enough for any case. A refused one leaves it as it was.
pub fn answer(input: &[u8], log: &mut [u32; 2400]) -> Result<Answered, Refusal>
    ensures value { handed_call result ≡ reply input.now }
    ensures log_after { log.new ≡ log_left input.now log.old }
{
    let mut table = [0u32; 256];
    let Some(Sheet { case, entries }) = case_sheet::read(input, &mut table) else {
        return Err(Refusal::MalformedInput);
    };
    let table = &table[..entries];
    wide_table::wide_refusal(case.method, case.n, case.m, table)?;
    let mut bytes = [0u8; 256];
    wide_table::narrow(table, &mut bytes);
    let mut scratch = [0u8; 512];
    calls::logged(case, &bytes[..entries], &mut scratch, log)
}
