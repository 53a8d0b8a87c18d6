// Makes the chained calls that the records of the file `cases` ask for, and prints what each hands back and leaves as one line.
// A case is two records of the form that test_lookup_records says, the first call's and the second's, whose x0, r1 and r2 are not
// looked at. A line is refusal, share and both counts, then both lent scratches and both lent logs after the call: whole where that call's
// n is at most 2, and as a checksum each where it is larger.
#![tactic(auto)]

use chain::{ChainAnswered, Second};
use refusals::Refusal;
use std::io;

// What the second call has of its own.
fn second_call(record: &[u8]) -> Second {
    let case = test_lookup_records::case(record);
    Second {
        method: case.method,
        n: case.n,
        m: case.m,
        s1: case.s1,
        s2: case.s2,
        r3: case.r3,
        b: case.b,
    }
}

// Beside the number of a refusal zeros are printed.
fn print_reply(rt: &impl Print, answer: Result<ChainAnswered, Refusal>) -> io::Result<()> {
    test_records::print_first(rt, refusals::refusal_number(&answer))?;
    let answered = answer.unwrap_or(ChainAnswered {
        share: 0,
        first_count: 0,
        second_count: 0,
    });
    test_records::print_next(rt, answered.share)?;
    test_records::print_next(rt, answered.first_count)?;
    test_records::print_next(rt, answered.second_count)
}

// Prints the buffers of a case's two records as the call left them.
fn print_buffers(
    rt: &impl Print,
    first: &[u8],
    second: &[u8],
    first_scratch: &[u8],
    second_scratch: &[u8],
    first_log: &[u32],
    second_log: &[u32],
) -> io::Result<()> {
    test_records::print_values(rt, test_lookup_records::whole(first), first_scratch)?;
    test_records::print_values(rt, test_lookup_records::whole(second), second_scratch)?;
    test_records::print_values(rt, test_lookup_records::whole(first), first_log)?;
    test_records::print_values(rt, test_lookup_records::whole(second), second_log)?;
    test_records::end_line(rt)
}

// Makes a case's call on the buffers lent, and prints its line.
fn print_call(
    rt: &impl Print,
    first: &[u8],
    second: &[u8],
    first_scratch: &mut [u8],
    second_scratch: &mut [u8],
    first_log: &mut [u32],
    second_log: &mut [u32],
) -> io::Result<()> {
    let answer = chain::chained_call(
        test_lookup_records::case(first),
        second_call(second),
        test_lookup_records::table(first),
        test_lookup_records::table(second),
        first_scratch,
        second_scratch,
        first_log,
        second_log,
    );
    print_reply(rt, answer)?;
    print_buffers(
        rt,
        first,
        second,
        first_scratch,
        second_scratch,
        first_log,
        second_log,
    )
}

// The same, with the scratches prepared as the records say.
fn prepare_and_print(
    rt: &impl Print,
    first: &[u8],
    second: &[u8],
    first_scratch: &mut [u8],
    second_scratch: &mut [u8],
    first_log: &mut [u32],
    second_log: &mut [u32],
) -> io::Result<()> {
    test_lookup_records::prepare(first, first_scratch);
    test_lookup_records::prepare(second, second_scratch);
    print_call(
        rt,
        first,
        second,
        first_scratch,
        second_scratch,
        first_log,
        second_log,
    )
}

// Lends filled buffers of the records' lengths, so that what is cleared, what a call writes and what it leaves can all be seen.
fn answer(rt: &impl Print, first: &[u8], second: &[u8]) -> io::Result<()> {
    let mut first_scratch = [90u8; 600];
    let mut second_scratch = [90u8; 600];
    let mut first_log = [2779096485u32; 2400];
    let mut second_log = [2779096485u32; 2400];
    let first_bytes = test_lookup_records::scratch_length(first);
    let second_bytes = test_lookup_records::scratch_length(second);
    let first_entries = test_lookup_records::log_length(first);
    let second_entries = test_lookup_records::log_length(second);
    prepare_and_print(
        rt,
        first,
        second,
        &mut first_scratch[..first_bytes],
        &mut second_scratch[..second_bytes],
        &mut first_log[..first_entries],
        &mut second_log[..second_entries],
    )
}

// The first call's record stands before the second's.
fn main(rt: HostRuntime) -> io::Result<()> {
    test_records::each_record(&rt, &mut [0; 640], |case| {
        let first = test_records::part(case, 0, 320);
        let second = test_records::part(case, 320, 320);
        answer(&rt, first, second)
    })
}
