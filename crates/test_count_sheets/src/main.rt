// Fills the count sheets that the records of the file `cases` ask for, and prints what each call hands back and leaves as one line.
// A record is 304 bytes: the six numbers of a pair of probes as little-endian u32, then as u16 the lengths of table, scratch, log and
// sheet, and from byte 32 the table. A line is the refusal, then the lent scratch and log after the call, whole where n is at most 1,
// and as a checksum each where it is larger, and the lent sheet, whole.
#![tactic(auto)]

use count_sheet::ProbePair;
use std::io;

fn pair(record: &[u8]) -> ProbePair {
    ProbePair {
        method: test_records::number(record, 0),
        n: test_records::number(record, 4),
        m: test_records::number(record, 8),
        secret: test_records::number(record, 12),
        first: test_records::number(record, 16),
        second: test_records::number(record, 20),
    }
}

// Makes a record's call on the buffers lent, and prints its line.
fn print_call(
    rt: &impl Print,
    record: &[u8],
    scratch: &mut [u8],
    log: &mut [u32],
    sheet: &mut [u32],
) -> io::Result<()> {
    let table = test_records::part(record, 32, test_records::length(record, 24));
    let answer = count_sheet::count_sheet(pair(record), table, scratch, log, sheet);
    let whole = test_records::number(record, 4) <= 1;
    test_records::print_first(rt, refusals::refusal_number(&answer))?;
    test_records::print_values(rt, whole, scratch)?;
    test_records::print_values(rt, whole, log)?;
    test_records::print_values(rt, true, sheet)?;
    test_records::end_line(rt)
}

// Lends filled buffers of the record's lengths, so that what a call clears, what it overwrites and what it leaves can all be seen.
fn answer(rt: &impl Print, record: &[u8]) -> io::Result<()> {
    let mut scratch = [165u8; 600];
    let mut log = [2779096485u32; 2400];
    let mut sheet = [4042322160u32; 100];
    let bytes = test_records::length(record, 26).min(600);
    let entries = test_records::length(record, 28).min(2400);
    let counts = test_records::length(record, 30).min(100);
    print_call(
        rt,
        record,
        &mut scratch[..bytes],
        &mut log[..entries],
        &mut sheet[..counts],
    )
}

fn main(rt: HostRuntime) -> io::Result<()> {
    test_records::each_record(&rt, &mut [0; 304], |record| answer(&rt, record))
}
