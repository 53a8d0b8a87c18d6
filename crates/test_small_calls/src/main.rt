// Makes the calls that the records of the file `cases` ask for, and prints what each hands back as one line.
// A record is 64 bytes: byte 0 is the call (0 split, 1 join, 2 add_key, 3 linear_layer), from byte 4 stand its numbers as
// little-endian u32 in the order of the call's parameters, byte 40 is the number of rows, and from byte 41 stand the rows.
#![tactic(auto)]

use refusals::Refusal;
use shares::Shares;
use std::io;

// Beside the number of a refusal zeros are printed.
fn print_shares(rt: &impl Print, answer: Result<Shares, Refusal>) -> io::Result<()> {
    test_records::print_first(rt, refusals::refusal_number(&answer))?;
    let shares = answer.unwrap_or(Shares {
        first: 0,
        second: 0,
        third: 0,
    });
    test_records::print_next(rt, shares.first)?;
    test_records::print_next(rt, shares.second)?;
    test_records::print_next(rt, shares.third)?;
    test_records::end_line(rt)
}

fn print_secret(rt: &impl Print, answer: Result<u32, Refusal>) -> io::Result<()> {
    test_records::print_first(rt, refusals::refusal_number(&answer))?;
    test_records::print_next(rt, answer.unwrap_or(0))?;
    test_records::end_line(rt)
}

// Makes a record's call with its first numbers.
fn answer(rt: &impl Print, bytes: &[u8]) -> io::Result<()> {
    let rows = test_records::part(bytes, 41, test_records::byte(bytes, 40));
    let one = test_records::number(bytes, 4);
    let two = test_records::number(bytes, 8);
    let three = test_records::number(bytes, 12);
    let four = test_records::number(bytes, 16);
    let five = test_records::number(bytes, 20);
    let six = test_records::number(bytes, 24);
    let seven = test_records::number(bytes, 28);
    match test_records::byte(bytes, 0) {
        0 => print_shares(rt, shares::split(one, two, three, four)),
        1 => print_secret(rt, shares::join(one, two, three, four)),
        2 => print_shares(rt, shares::add_key(one, two, three, four, five, six, seven)),
        _ => print_shares(
            rt,
            linear::linear_layer(one, two, rows, three, four, five, six),
        ),
    }
}

fn main(rt: HostRuntime) -> io::Result<()> {
    test_records::each_record(&rt, &mut [0; 64], |record| answer(&rt, record))
}
