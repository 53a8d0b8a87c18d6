// Printing lines of numbers: a log with its answer, a refusal, a count sheet, and the lines of a case sheet. The caller's output is long enough
// for what is printed, so the functions here have a `requires`.
#![tactic(auto)]

ghost use Rattle.std.specs.Prelude.{◌≡◌, [], ◌∷◌, ◌+◌, ◌*◌, ◌≤◌, ◌<◌, length};
ghost use Rattle.buffers.specs.Written.{written, in_front};
ghost use Rattle.lookup.specs.Entry.{kind_of, value_of};
ghost use Rattle.log_print.specs.Lines.{line_of, column_of, entry_lines, answer_lines, count_lines};

// How many columns a number of a log, an answer or a refusal has.
const COLUMNS: usize = 6;

// A refusal's number is the only line. Returns the count of bytes.
pub fn put_refusal(output: &mut [u8], refusal: u32) -> usize
    requires { 7 ≤ length output.old }
    ensures value { result ≡ length (line_of 6 (refusal ∷ [])) }
    ensures output_after { output.new ≡ in_front (line_of 6 (refusal ∷ [])) output.old }
{
    put_line(output, 0, COLUMNS, &[refusal]);
    COLUMNS + 1
}

// The lines of a log, then refusal 0, the answer share and the count. Returns the count of bytes.
pub fn put_answer(output: &mut [u8], log: &[u32], share: u32, count: u32) -> usize
    requires { (length log.now ≤ 2400) × (19 * length log.now + 19 ≤ length output.old) }
    ensures value { result ≡ length (answer_lines 6 log.now share count) }
    ensures output_after { output.new ≡ in_front (answer_lines 6 log.now share count) output.old }
{
    let last = 19 * log.len();
    put_entries(output, log, 0);
    put_line(output, last, COLUMNS, &[0, share, count]);
    last + 19
}

// A line for each entry: its position, counted from the first's, its kind and its value. All three have room in their columns: kinds and
// values have 16 bits.
fn put_entries(output: &mut [u8], log: &[u32], first: u32)
    requires { (first + length log.now ≤ 999999) × (19 * length log.now ≤ length output.old) }
    ensures { output.new ≡ written output.old 0 (entry_lines 6 first log.now) }
{
    for (i, entry) in log.iter().enumerate() {
        put_entry(output, 19 * i, first + i as u32, *entry);
    }
}

fn put_entry(output: &mut [u8], at: usize, position: u32, entry: u32)
    requires { at + 19 ≤ length output.old }
    ensures { output.new ≡ written output.old at (line_of 6 (position ∷ kind_of entry ∷ value_of entry ∷ [])) }
{
    let kind = log_entries::kind(entry);
    let value = log_entries::value(entry);
    put_line(output, at, COLUMNS, &[position, kind, value]);
}

// A sheet's counts, as many lines of them as a line has. Returns the count of bytes.
pub fn put_counts(output: &mut [u8], counts: &[u32], side: usize) -> usize
    requires { (length counts.now ≡ side * side) × (side * (8 * side + 1) ≤ length output.old) }
    ensures value { result ≡ length (count_lines side side counts.now) }
    ensures output_after { output.new ≡ in_front (count_lines side side counts.now) output.old }
{
    for u in 0..side {
        let start = u * side;
        put_line(output, u * (8 * side + 1), 8, &counts[start..start + side]);
    }
    side * (8 * side + 1)
}

// Numbers in columns, a line for each, from a position on.
pub fn put_column(output: &mut [u8], at: usize, columns: usize, numbers: &[u32])
    requires { (0 < columns) × (columns ≤ 256) × (at + length numbers.now * (columns + 1) ≤ length output.old) }
    ensures { output.new ≡ written output.old at (column_of columns numbers.now) }
{
    for (i, number) in numbers.iter().enumerate() {
        put_line(output, at + i * (columns + 1), columns, &[*number]);
    }
}

// Numbers in columns, and a line feed, from a position on.
pub fn put_line(output: &mut [u8], at: usize, columns: usize, numbers: &[u32])
    requires { (0 < columns) × (at + length numbers.now * columns < length output.old) }
    ensures { output.new ≡ written output.old at (line_of columns numbers.now) }
{
    for (i, number) in numbers.iter().enumerate() {
        field::print(output, at + i * columns, columns, *number);
    }
    output[at + numbers.len() * columns] = b'\n';
}
