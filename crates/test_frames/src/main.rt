// Encrypts the frames that the records of the file `cases` ask for, and prints what each hands back and leaves as one line.
// A record is 704 bytes: the plaintext and the three shares of the key, 16 bytes each, then as little-endian u16 the numbers of random
// bytes and of scratch bytes that are lent, the first scratch byte and what each later one has more than the one before it, and from byte
// 70 the random bytes. A line is the refusal and the bytes of the three shares, then of the lent scratch after the call a checksum of the
// first 256 bytes, and whole what stands behind them.
#![tactic(auto)]

use frame::Ciphertext;
use refusals::Refusal;
use std::io;

// The types of places grow from a block to its columns and bytes, so that no sum wraps.
fn byte(record: &[u8], at: u32) -> u8 {
    test_records::byte(record, at as usize) as u8
}

fn column(record: &[u8], at: u16) -> [u8; 4] {
    let first = at as u32;
    [
        byte(record, first),
        byte(record, first + 1),
        byte(record, first + 2),
        byte(record, first + 3),
    ]
}

fn block(record: &[u8], at: u8) -> [[u8; 4]; 4] {
    let first = at as u16;
    [
        column(record, first),
        column(record, first + 4),
        column(record, first + 8),
        column(record, first + 12),
    ]
}

// Beside the number of a refusal zeros are printed.
fn print_line(
    rt: &impl Print,
    answer: Result<Ciphertext, Refusal>,
    scratch: &[u8],
) -> io::Result<()> {
    test_records::print_first(rt, refusals::refusal_number(&answer))?;
    let ciphertext = answer.unwrap_or(Ciphertext {
        share1: [0; 16],
        share2: [0; 16],
        share3: [0; 16],
    });
    let share1 = ciphertext.share1;
    let share2 = ciphertext.share2;
    let share3 = ciphertext.share3;
    test_records::print_values(rt, true, &share1)?;
    test_records::print_values(rt, true, &share2)?;
    test_records::print_values(rt, true, &share3)?;
    test_records::print_values(rt, false, test_records::part(scratch, 0, 256))?;
    test_records::print_values(rt, true, test_records::part(scratch, 256, scratch.len()))?;
    test_records::end_line(rt)
}

// Writes one byte after the other, each so much more than the one before it.
fn soil(buffer: &mut [u8], first: u8, step: u8) {
    let mut next = first;
    for byte in buffer {
        *byte = next;
        next = next.wrapping_add(step);
    }
}

// Encrypts a record's frame on the scratch lent, which it soils first, and prints its line.
fn print_frame(rt: &impl Print, record: &[u8], scratch: &mut [u8]) -> io::Result<()> {
    soil(scratch, byte(record, 68), byte(record, 69));
    let answer = frame::encrypt_frame(
        block(record, 0),
        block(record, 16),
        block(record, 32),
        block(record, 48),
        test_records::part(record, 70, test_records::length(record, 64)),
        scratch,
    );
    print_line(rt, answer, scratch)
}

fn answer(rt: &impl Print, record: &[u8]) -> io::Result<()> {
    let mut scratch = [0u8; 300];
    let bytes = test_records::length(record, 66).min(300);
    print_frame(rt, record, &mut scratch[..bytes])
}

fn main(rt: HostRuntime) -> io::Result<()> {
    test_records::each_record(&rt, &mut [0; 704], |record| answer(&rt, record))
}
