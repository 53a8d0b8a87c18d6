// Case sheets carried over from one edition to another, each way.
#![tactic(auto)]

ghost use Rattle.std.specs.Prelude.{◌≡◌, ◌++◌, ◌+◌, ◌≤◌, ◌<◌, length};
ghost use Rattle.refusals.specs.Tests.{any_from};
ghost use Rattle.buffers.specs.Written.{in_front};
ghost use Rattle.conversion.specs.Conversion.{sheet_lines, converted, to_six_columns as conversion_to_six_columns, to_four_columns as conversion_to_four_columns};

use case_sheet::Edition;
use refusals::Refusal;

// Carries a sheet of four columns over to six, in front in the output, and returns the count of bytes; or 1 alone, for what is no such sheet.
// The longest sheet of six columns has 1,853 bytes.
#[tactic(auto, unfolding(crate::specs::Conversion::to_six_columns))]
pub fn to_six_columns(input: &[u8], output: &mut [u8; 2048]) -> usize
    ensures value { result ≡ length (conversion_to_six_columns input.now) }
    ensures output_after { output.new ≡ in_front (conversion_to_six_columns input.now) output.old }
{
    let from = case_sheet::four_columns();
    let to = case_sheet::six_columns();
    convert(input, from, to, output)
}

// Carries a sheet of six columns over to four, likewise; or 1 alone, or 22 alone where a number is above 255.
#[tactic(auto, unfolding(crate::specs::Conversion::to_four_columns))]
pub fn to_four_columns(input: &[u8], output: &mut [u8; 2048]) -> usize
    ensures value { result ≡ length (conversion_to_four_columns input.now) }
    ensures output_after { output.new ≡ in_front (conversion_to_four_columns input.now) output.old }
{
    let from = case_sheet::six_columns();
    let to = case_sheet::four_columns();
    convert(input, from, to, output)
}

// The columns of both editions are few, so that lengths fit and the output is long enough: hence the `requires`.
#[tactic(auto, using(crate::proofs::Converting::convert_laws))]
fn convert(input: &[u8], from: Edition, to: Edition, output: &mut [u8; 2048]) -> usize
    requires { (from.columns ≤ 256) × (0 < to.columns) × (to.columns ≤ 6) }
    ensures value { result ≡ length (converted from to input.now) }
    ensures output_after { output.new ≡ in_front (converted from to input.now) output.old }
{
    let mut numbers = [0u32; 10];
    let mut table = [0u32; 256];
    let Some(entries) = case_sheet::read_numbers(input, from, &mut numbers, &mut table) else {
        return log_print::put_refusal(output, Refusal::MalformedInput.number());
    };
    let table = &table[..entries];
    if any_above(to.most, &numbers, table) {
        return log_print::put_refusal(output, Refusal::LargeNumber.number());
    }
    put_sheet(output, to.columns, &numbers, table)
}

// Whether a number of the case line or of the table is above the largest.
#[tactic(auto, using(crate::proofs::Converting::first_above, crate::proofs::Converting::rest_above))]
fn any_above(most: u16, numbers: &[u32], table: &[u32]) -> bool
    ensures { result ≡ any_from (most + 1) (numbers.now ++ table.now) }
{
    let least = u32::from(most) + 1;
    refusals::any_number_from(least, numbers) || refusals::any_number_from(least, table)
}

// The lines of a sheet in front in the output. Returns the count of bytes.
#[tactic(auto, using(crate::proofs::Converting::sheet_long, crate::proofs::Converting::sheet_left))]
fn put_sheet(output: &mut [u8; 2048], columns: usize, numbers: &[u32], table: &[u32]) -> usize
    requires { (0 < columns) × (columns ≤ 6) × (length numbers.now ≡ 10) × (length table.now ≤ 256) }
    ensures value { result ≡ length (sheet_lines columns numbers.now table.now) }
    ensures output_after { output.new ≡ in_front (sheet_lines columns numbers.now table.now) output.old }
{
    let start = 10 * columns + 1;
    log_print::put_line(output, 0, columns, numbers);
    log_print::put_column(output, start, columns, table);
    start + table.len() * (columns + 1)
}
