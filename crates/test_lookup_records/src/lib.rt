// Records of a logged call, for the programs that make one call or several of such records, and the scratch that a record asks for.
// A record is 320 bytes: the call's ten numbers as little-endian u32 in the order of its parameters, then as u16 the lengths of
// table, scratch and log and the places from which and up to which, not including it, the scratch is lent dirty, and from byte 50
// the table.
#![tactic(auto)]

ghost use Rattle.std.specs.Prelude.{◌≤◌};

use lookup::Case;

pub fn case(record: &[u8]) -> Case {
    Case {
        method: test_records::number(record, 0),
        n: test_records::number(record, 4),
        m: test_records::number(record, 8),
        x0: test_records::number(record, 12),
        r1: test_records::number(record, 16),
        r2: test_records::number(record, 20),
        s1: test_records::number(record, 24),
        s2: test_records::number(record, 28),
        r3: test_records::number(record, 32),
        b: test_records::number(record, 36),
    }
}

pub fn table(record: &[u8]) -> &[u8] {
    test_records::part(record, 50, test_records::length(record, 40))
}

// How many bytes of scratch are lent, of 600.
pub fn scratch_length(record: &[u8]) -> usize
    ensures { result ≤ 600 }
{
    test_records::length(record, 42).min(600)
}

// How many entries of a log are lent, of 2400.
pub fn log_length(record: &[u8]) -> usize
    ensures { result ≤ 2400 }
{
    test_records::length(record, 44).min(2400)
}

// Whether the call's scratch and log are short enough to be printed whole.
pub fn whole(record: &[u8]) -> bool {
    test_records::number(record, 4) <= 2
}

// Clears the scratch, and soils it where the record says.
pub fn prepare(record: &[u8], scratch: &mut [u8]) {
    buffers::clear(scratch);
    soil(
        scratch,
        test_records::length(record, 46),
        test_records::length(record, 48),
    );
}

// Writes 165 from one place up to, not including, another, as far as the buffer reaches.
fn soil(buffer: &mut [u8], from: usize, to: usize) {
    let end = to.min(buffer.len());
    buffer[from.min(end)..end].fill(165);
}
