// Numbers in columns: a field is read to a number, and a number is printed.
#![tactic(auto)]

ghost use Rattle.std.specs.Prelude.{◌≡◌, ◌+◌, ◌≤◌, ◌<◌, length};
ghost use Rattle.buffers.specs.Written.{written};
ghost use Rattle.field.specs.Field.{decimal as field_decimal, number as field_number};
ghost use Rattle.field.specs.Field.{spaces as field_spaces, up_to, field_of};
ghost use Rattle.field.specs.Printed.{mark as printed_mark, front, printed};

// Spaces and then a number up to the end, in exactly so many columns; the number is at most the largest. What is of another form has none.
pub fn read(bytes: &[u8], columns: usize, most: u16) -> Option<u16>
    ensures { result ≡ field_of columns most bytes.now }
{
    if bytes.len() != columns {
        return None;
    }
    number(&bytes[spaces(bytes)..], most)
}

// How many spaces stand in front.
fn spaces(bytes: &[u8]) -> usize
    ensures { result ≡ field_spaces bytes.now }
{
    bytes.iter().take_while(|byte| **byte == b' ').count()
}

// At least one digit, and no leading zero.
fn number(bytes: &[u8], most: u16) -> Option<u16>
    ensures { result ≡ up_to most (field_number bytes.now) }
{
    if bytes.is_empty() {
        return None;
    }
    if bytes.len() > 1 && bytes[0] == b'0' {
        return None;
    }
    decimal(bytes, most)
}

// Digits up to the end. A value above the largest stays above it, whatever follows.
fn decimal(bytes: &[u8], most: u16) -> Option<u16>
    ensures { result ≡ up_to most (field_decimal 0 bytes.now) }
{
    let mut value: u32 = 0;
    for byte in bytes {
        if !byte.is_ascii_digit() {
            return None;
        }
        value = value * 10 + u32::from(*byte - b'0');
        if value > u32::from(most) {
            return None;
        }
    }
    Some(value as u16)
}

// Prints a number in columns from a position on. The columns are in the output, so it has a `requires`.
pub fn print(output: &mut [u8], at: usize, columns: usize, value: u32)
    requires { (0 < columns) × (at + columns ≤ length output.old) }
    ensures { output.new ≡ written output.old at (printed columns value) }
{
    output[at + (columns - 1)] = b'0' + (value % 10) as u8;
    print_front(output, at, columns - 1, value / 10);
}

// What is left of a number, from its last digit to its first, and spaces before that.
fn print_front(output: &mut [u8], at: usize, columns: usize, value: u32)
    requires { at + columns ≤ length output.old }
    ensures { output.new ≡ written output.old at (front columns value) }
{
    let mut left = value;
    for i in (0..columns).rev() {
        output[at + i] = mark(left);
        left /= 10;
    }
}

// The last digit of what is left of a number, or a space where nothing is left.
#[tactic(auto, unfolding(crate::specs::Printed::mark))]
fn mark(left: u32) -> u8
    ensures { result ≡ printed_mark left }
{
    if left == 0 {
        b' '
    } else {
        b'0' + (left % 10) as u8
    }
}
