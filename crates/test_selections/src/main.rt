// Makes both selections that each record of the file `cases` asks for, and prints what they hand back and leave as one line.
// A record is 48 bytes: from byte 0 stand the ten numbers as little-endian u32 in the order of the calls' parameters, bytes 40 and 41 are the
// lent log's length, and byte 42 is 1 where that log is printed whole. A line is what the call with a log hands back, refusal and lent places
// of the call without one, and the lent log, or its checksum.
#![tactic(auto)]

use halves::Selection;
use refusals::Refusal;
use selection::HalfShares;
use std::io;

// A record's numbers.
fn numbers(record: &[u8]) -> Selection {
    Selection {
        width: test_records::number(record, 0),
        z0: test_records::number(record, 4),
        z1: test_records::number(record, 8),
        z2: test_records::number(record, 12),
        c0: test_records::number(record, 16),
        c1: test_records::number(record, 20),
        c2: test_records::number(record, 24),
        t1: test_records::number(record, 28),
        t2: test_records::number(record, 32),
        b: test_records::number(record, 36),
    }
}

// Beside the number of a refusal zeros are printed.
fn print_reply(rt: &impl Print, answer: Result<HalfShares, Refusal>) -> io::Result<()> {
    test_records::print_first(rt, refusals::refusal_number(&answer))?;
    let half = answer.unwrap_or(HalfShares {
        first: 0,
        second: 0,
        third: 0,
        count: 0,
    });
    test_records::print_next(rt, half.first)?;
    test_records::print_next(rt, half.second)?;
    test_records::print_next(rt, half.third)?;
    test_records::print_next(rt, half.count)
}

// Makes the call without a log on filled places, and prints its refusal and what they then hold.
fn print_plain(rt: &impl Print, s: Selection) -> io::Result<()> {
    let mut share0 = 90u8;
    let mut share1 = 90u8;
    let mut share2 = 90u8;
    let answer = selection::plain_select(
        s.width,
        s.z0,
        s.z1,
        s.z2,
        s.c0,
        s.c1,
        s.c2,
        s.t1,
        s.t2,
        s.b,
        &mut share0,
        &mut share1,
        &mut share2,
    );
    test_records::print_next(rt, refusals::refusal_number(&answer))?;
    test_records::print_next(rt, share0 as u32)?;
    test_records::print_next(rt, share1 as u32)?;
    test_records::print_next(rt, share2 as u32)
}

// Makes both calls, and prints their line.
fn print_both(rt: &impl Print, record: &[u8], log: &mut [u32]) -> io::Result<()> {
    let s = numbers(record);
    let answer = selection::select(
        s.width, s.z0, s.z1, s.z2, s.c0, s.c1, s.c2, s.t1, s.t2, s.b, log,
    );
    print_reply(rt, answer)?;
    print_plain(rt, s)?;
    test_records::print_values(rt, test_records::byte(record, 42) == 1, log)?;
    test_records::end_line(rt)
}

// Lends a filled log of the record's length, so that what a call writes and what it leaves can both be seen.
fn answer(rt: &impl Print, record: &[u8]) -> io::Result<()> {
    let mut log = [2779096485u32; 64];
    let entries = test_records::length(record, 40).min(64);
    print_both(rt, record, &mut log[..entries])
}

fn main(rt: HostRuntime) -> io::Result<()> {
    test_records::each_record(&rt, &mut [0; 48], |record| answer(&rt, record))
}
