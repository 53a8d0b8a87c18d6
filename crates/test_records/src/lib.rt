// Files of test cases: their records one after the other, the numbers in a record, and numbers and buffers printed on a line.
#![tactic(auto)]

ghost use Rattle.std.specs.Prelude.{◌≡◌, ◌≤◌, ◌<◌, length, get_or, take, drop, true, IfOk, IfSome};
ghost use Rattle.std.specs.Io.KnownBytes.{Consumes};
ghost use Rattle.test_records.specs.Files.{Opened, Filled};
ghost use Rattle.test_records.specs.Little.{length_at, number_at};

use std::fs::File;
use std::io::{ErrorKind, Read};
use std::os::fd::AsRawFd;
use std::rt::Files;
use std::{fs, io};

// Opens the file `cases`, or answers why that failed. No contract of the library says what a descriptor is, so that is tested.
pub fn open(rt: &impl Files<File = File>) -> io::Result<File>
    ensures { Opened result }
{
    let file = fs::open(rt, "cases")?;
    if file.as_raw_fd() < 0 {
        return Err(io::Error::from(ErrorKind::NotFound));
    }
    Ok(file)
}

// Fills the space from the file; false where the file holds no whole record more. No contract can say what the system reads.
pub fn read<R: Read>(file: &mut R, space: &mut [u8]) -> io::Result<bool>
    ensures filled { Filled space.old space.new result }
    ensures bytes { result ≡ Ok true → Consumes (R.remaining file.old) (R.remaining file.new) space.new }
{
    if space.is_empty() {
        return Ok(true);
    }
    match file.read_exact(space) {
        Ok(()) => Ok(true),
        Err(error) if error.kind() == ErrorKind::UnexpectedEof => Ok(false),
        Err(error) => Err(error),
    }
}

// Reads the next sheet into the front of the space, and hands back how many bytes it has: its length stands as two little-endian bytes
// before it, and is taken as far as the space goes. None where the file holds no whole sheet more.
pub fn next_sheet<R: Read>(file: &mut R, space: &mut [u8]) -> io::Result<Option<usize>>
    ensures { IfOk result (λ next. IfSome next (λ count. count ≤ length space.new)) }
{
    let mut size = [0u8; 2];
    if !read(file, &mut size)? {
        return Ok(None);
    }
    let count = length(&size, 0).min(space.len());
    if !read(file, &mut space[..count])? {
        return Ok(None);
    }
    Ok(Some(count))
}

// Answers the file `cases` piece by piece, until an answer says by `false` that the file holds no more.
pub fn each<F: FnMut(&mut File) -> io::Result<bool>>(
    rt: &impl Files<File = File>,
    mut answer_next: F,
) -> io::Result<()>
    requires { (answers : _) (file : _) → F.pre answers file }
{
    let mut file = open(rt)?;
    // a proved loop has to end, so it has more turns than any file of cases takes
    for _ in 0..u32::MAX {
        if !answer_next(&mut file)? {
            break;
        }
    }
    Ok(())
}

// Answers each record of the file `cases`. All are as long as the space that is lent for one.
pub fn each_record<F: Fn(&[u8]) -> io::Result<()>>(
    rt: &impl Files<File = File>,
    record: &mut [u8],
    answer: F,
) -> io::Result<()>
    requires { (answers : _) (bytes : _) → F.pre answers bytes }
{
    each(rt, |file| {
        let more = read(file, record)?;
        if more {
            answer(record)?;
        }
        Ok(more)
    })
}

// Answers each sheet of the file `cases`, as far as the space for one goes.
pub fn each_sheet<F: Fn(&[u8])>(
    rt: &impl Files<File = File>,
    space: &mut [u8],
    answer: F,
) -> io::Result<()>
    requires { (answers : _) (bytes : _) → F.pre answers bytes }
{
    each(rt, |file| {
        let next = next_sheet(file, space)?;
        if let Some(count) = next {
            answer(&space[..count]);
        }
        Ok(next.is_some())
    })
}

// The byte at a place; past the end it is 0.
pub fn byte(bytes: &[u8], at: usize) -> usize
    ensures value { result ≡ get_or bytes.now at 0 }
    ensures upper_bound { result < 256 }
{
    bytes.get(at).copied().unwrap_or(0) as usize
}

// The length whose lowest byte stands at `at`. A place has fewer bits than the sums that it goes into, so that none wraps.
pub fn length(bytes: &[u8], at: u32) -> usize
    ensures value { result ≡ length_at bytes.now at }
    ensures upper_bound { result < 65536 }
{
    let first = at as usize;
    byte(bytes, first) + 256 * byte(bytes, first + 1)
}

// The number whose lowest byte stands at `at`.
pub fn number(bytes: &[u8], at: u16) -> u32
    ensures { result ≡ number_at bytes.now at }
{
    let first = at as u32;
    (length(bytes, first) + 65536 * length(bytes, first + 2)) as u32
}

// So many bytes from a place on, or fewer where the record ends before.
pub fn part(bytes: &[u8], from: usize, length: usize) -> &[u8]
    ensures { result.now ≡ take length (drop from bytes.now) }
{
    let rest = &bytes[from.min(bytes.len())..];
    &rest[..length.min(rest.len())]
}

// Prints a line's first number.
pub fn print_first(rt: &impl Print, number: u32) -> io::Result<()> {
    print!(rt; "{number}")
}

pub fn print_next(rt: &impl Print, number: u32) -> io::Result<()> {
    print!(rt; " {number}")
}

pub fn end_line(rt: &impl Print) -> io::Result<()> {
    println!(rt;)
}

// Prints a buffer whole, or its checksum, which depends on every value and on their order.
pub fn print_values<T: Copy + Into<u32>>(
    rt: &impl Print,
    whole: bool,
    values: &[T],
) -> io::Result<()> {
    if !whole {
        let checksum = values
            .iter()
            .fold(1, |sum, value| with_next(sum, (*value).into()));
        return print_next(rt, checksum);
    }
    for value in values {
        print_next(rt, (*value).into())?;
    }
    Ok(())
}

// A checksum with one value more in it.
fn with_next(checksum: u32, value: u32) -> u32 {
    ((checksum as u64 * 31 + value as u64) % 4294967291) as u32
}
