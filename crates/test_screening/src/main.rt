// Screens the runs that the records of the file `cases` describe, and prints the report of each as one line: a start, or `none`.
// A record is 42 bytes and a pattern: the run's length as a little-endian u32 and the pattern's as a u16, then four changes of 9 bytes
// each, and behind them the pattern. The run is the pattern, over and over. A change is the first place as a u32, then as u16 how far
// apart the places are and how many, and the value that is put there.
#![tactic(auto)]

use std::fs::File;
use std::io;

fn byte(bytes: &[u8], at: usize) -> u8 {
    test_records::byte(bytes, at) as u8
}

// Writes the pattern over and over; an empty one leaves the run as it is.
fn fill(run: &mut [u8], pattern: &[u8]) {
    for (place, byte) in run.iter_mut().zip(pattern.iter().cycle()) {
        *place = *byte;
    }
}

// Writes a value into so many places, from the first on and so far apart, as far as the run goes.
fn put(run: &mut [u8], first: usize, apart: usize, count: usize, value: u8) {
    let mut at = first;
    for _ in 0..count {
        if at >= run.len() {
            break;
        }
        run[at] = value;
        at = at.wrapping_add(apart);
    }
}

// Makes the change that stands at a place of the record.
fn change(run: &mut [u8], record: &[u8; 42], at: u8) {
    put(
        run,
        test_records::number(record, at as u16) as usize,
        test_records::length(record, at as u32 + 4),
        test_records::length(record, at as u32 + 6),
        byte(record, at as usize + 8),
    );
}

fn print_report(rt: &impl Print, report: Option<usize>) -> io::Result<()> {
    match report {
        Some(start) => println!(rt; "{start}"),
        None => println!(rt; "none"),
    }
}

// Makes the run that a record and its pattern describe, and prints its report.
fn answer(rt: &impl Print, record: &[u8; 42], pattern: &[u8], run: &mut [u8]) -> io::Result<()> {
    fill(run, pattern);
    change(run, record, 6);
    change(run, record, 15);
    change(run, record, 24);
    change(run, record, 33);
    print_report(rt, screening::screen(run))
}

// Reads a record's pattern into the space, and answers it on a run of its length; false where the file is shorter.
fn answer_pattern(
    rt: &impl Print,
    file: &mut File,
    record: &[u8; 42],
    space: &mut [u8],
) -> io::Result<bool> {
    if !test_records::read(file, space)? {
        return Ok(false);
    }
    let mut run = [0u8; 70000];
    let length = (test_records::number(record, 0) as usize).min(70000);
    answer(rt, record, space, &mut run[..length])?;
    Ok(true)
}

// Reads and answers one record; false where the file holds no more.
fn answer_next(rt: &impl Print, file: &mut File) -> io::Result<bool> {
    let mut record = [0u8; 42];
    if !test_records::read(file, &mut record)? {
        return Ok(false);
    }
    let mut space = [0u8; 5000];
    let length = test_records::length(&record, 4).min(5000);
    answer_pattern(rt, file, &record, &mut space[..length])
}

fn main(rt: HostRuntime) -> io::Result<()> {
    test_records::each(&rt, |file| answer_next(&rt, file))
}
