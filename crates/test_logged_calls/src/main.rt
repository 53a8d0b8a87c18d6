// Makes the logged calls that the records of the file `cases` ask for, and prints what each hands back and leaves as one line.
// A record has the form that test_lookup_records says. A line is refusal, share and count, then the lent scratch and log after the call:
// whole where n is at most 2, and as a checksum each where it is larger.
#![tactic(auto)]

use lookup::Answered;
use refusals::Refusal;
use std::io;

// Beside the number of a refusal zeros are printed.
fn print_line(
    rt: &impl Print,
    answer: Result<Answered, Refusal>,
    whole: bool,
    scratch: &[u8],
    log: &[u32],
) -> io::Result<()> {
    test_records::print_first(rt, refusals::refusal_number(&answer))?;
    let answered = answer.unwrap_or(Answered { share: 0, count: 0 });
    test_records::print_next(rt, answered.share)?;
    test_records::print_next(rt, answered.count)?;
    test_records::print_values(rt, whole, scratch)?;
    test_records::print_values(rt, whole, log)?;
    test_records::end_line(rt)
}

// Makes a record's call on the buffers lent, the scratch prepared as the record says, and prints its line.
fn print_call(
    rt: &impl Print,
    record: &[u8],
    scratch: &mut [u8],
    log: &mut [u32],
) -> io::Result<()> {
    test_lookup_records::prepare(record, scratch);
    let table = test_lookup_records::table(record);
    let answer = calls::logged(test_lookup_records::case(record), table, scratch, log);
    print_line(rt, answer, test_lookup_records::whole(record), scratch, log)
}

// Lends filled buffers of the record's lengths, so that what is cleared, what a call writes and what it leaves can all be seen.
fn answer(rt: &impl Print, record: &[u8]) -> io::Result<()> {
    let mut scratch = [90u8; 600];
    let mut log = [2779096485u32; 2400];
    let bytes = test_lookup_records::scratch_length(record);
    let entries = test_lookup_records::log_length(record);
    print_call(rt, record, &mut scratch[..bytes], &mut log[..entries])
}

fn main(rt: HostRuntime) -> io::Result<()> {
    test_records::each_record(&rt, &mut [0; 320], |record| answer(&rt, record))
}
