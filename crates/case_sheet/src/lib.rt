// Reading a case sheet: a line of fields, each a number in its columns, then lines of one field, a table's entries. The edition says how many
// columns there are, and the largest number.
#![tactic(auto)]

ghost use Rattle.std.specs.Prelude.{◌≡◌, ◌*◌, ◌≤◌, ◌<◌, length};
ghost use Rattle.buffers.specs.Written.{in_front};
ghost use Rattle.case_sheet.specs.Edition.{four_columns as edition_four_columns, six_columns as edition_six_columns};
ghost use Rattle.case_sheet.specs.Sheet.{item as sheet_item, size as sheet_size, leading as sheet_leading, complete as sheet_complete};
ghost use Rattle.case_sheet.specs.Sheet.{numbers_of, table_of, lines_of, case_read, sheet_of};

use lookup::Case;

// A case sheet that was read: its case, and how many table entries it has.
#[derive(Clone, Copy)]
pub struct Sheet {
    pub case: Case,
    pub entries: usize,
}

// An edition of the sheets: how many columns a number has, and the largest number.
#[derive(Clone, Copy)]
pub struct Edition {
    pub columns: usize,
    pub most: u16,
}

pub fn four_columns() -> Edition
    ensures { result ≡ edition_four_columns }
{
    Edition {
        columns: 4,
        most: 255,
    }
}

pub fn six_columns() -> Edition
    ensures { result ≡ edition_six_columns }
{
    Edition {
        columns: 6,
        most: 65535,
    }
}

// Reads the bench's sheet, whose case line has ten numbers of six columns; there is none where the input is malformed. The table is left as
// `read_numbers` leaves it.
pub fn read(input: &[u8], table: &mut [u32; 256]) -> Option<Sheet>
    ensures value { result ≡ sheet_of input.now }
    ensures table_after { table.new ≡ in_front (table_of edition_six_columns 10 input.now) table.old }
{
    let mut numbers = [0u32; 10];
    let entries = read_numbers(input, six_columns(), &mut numbers, table)?;
    let case = case_from(numbers);
    Some(Sheet { case, entries })
}

// Reads the whole sheet, with a field on its case line for each of the numbers, and returns how many table entries it has, if it is not
// malformed. Numbers and columns are few, so that the line's length fits: hence the `requires`. What the fields and the table's lines hold
// stands in front in the numbers and in the table, up to the first that is malformed; the rest of both is unchanged.
pub fn read_numbers(
    input: &[u8],
    edition: Edition,
    numbers: &mut [u32],
    table: &mut [u32; 256],
) -> Option<usize>
    requires { (edition.columns ≤ 256) × (length numbers.old ≤ 256) }
    ensures value { result ≡ lines_of edition (length numbers.old) input.now }
    ensures numbers_after { numbers.new ≡ in_front (numbers_of edition (length numbers.old) input.now)
        numbers.old }
    ensures table_after { table.new ≡ in_front (table_of edition (length numbers.old) input.now)
        table.old }
{
    let fields = numbers.len();
    let found = leading(input, edition, false, numbers);
    let start = edition.columns * fields + 1;
    if input.len() < start {
        return None;
    }
    let entries = leading(&input[start..], edition, true, table);
    if complete(edition, fields, found, entries, input) {
        Some(entries)
    } else {
        None
    }
}

// Reads the fields or lines in front, as many as there is room for the numbers, up to the first that is malformed.
fn leading(input: &[u8], edition: Edition, line: bool, numbers: &mut [u32]) -> usize
    requires { edition.columns ≤ 256 }
    ensures value { result ≡ length (sheet_leading edition line (length numbers.old) input.now) }
    ensures numbers_after { numbers.new ≡ in_front (sheet_leading edition line (length numbers.old) input.now)
        numbers.old }
{
    let mut rest = input;
    for (i, number) in numbers.iter_mut().enumerate() {
        let Some(value) = item(rest, edition, line) else {
            return i;
        };
        *number = u32::from(value);
        rest = &rest[size(edition, line)..];
    }
    numbers.len()
}

// The field in front; where it is a line, a line feed stands behind it.
fn item(bytes: &[u8], edition: Edition, line: bool) -> Option<u16>
    requires { edition.columns ≤ 256 }
    ensures { result ≡ sheet_item edition line bytes.now }
{
    let columns = edition.columns;
    if bytes.len() < size(edition, line) {
        return None;
    }
    if line && bytes[columns] != b'\n' {
        return None;
    }
    field::read(&bytes[..columns], columns, edition.most)
}

#[tactic(auto, unfolding(crate::specs::Sheet::size))]
fn size(edition: Edition, line: bool) -> usize
    requires { edition.columns ≤ 256 }
    ensures { result ≡ sheet_size edition line }
{
    if line {
        edition.columns + 1
    } else {
        edition.columns
    }
}

// A number in each field, a line feed, table lines, and nothing behind them. The case line is there, and there are at most 256 columns, fields
// and entries, so it has a `requires`.
#[tactic(auto, unfolding(crate::specs::Sheet::complete))]
fn complete(edition: Edition, fields: usize, numbers: usize, entries: usize, input: &[u8]) -> bool
    requires { (edition.columns * fields < length input.now) × (edition.columns ≤ 256) × (fields ≤ 256) × (entries ≤ 256) }
    ensures { result ≡ sheet_complete edition fields numbers entries input.now }
{
    let feed = edition.columns * fields;
    let ended = input[feed] == b'\n';
    let size = feed + 1 + (edition.columns + 1) * entries;
    numbers == fields && ended && size == input.len()
}

// The case of the ten numbers of its line.
#[tactic(auto, unfolding(crate::specs::Sheet::case_read))]
fn case_from(numbers: [u32; 10]) -> Case
    ensures { result ≡ case_read numbers }
{
    let [method, n, m, x0, r1, r2, s1, s2, r3, b] = numbers;
    Case {
        method,
        n,
        m,
        x0,
        r1,
        r2,
        s1,
        s2,
        r3,
        b,
    }
}
