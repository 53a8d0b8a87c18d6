// Which tables are refused: by their widths, their length, an entry, or since they are not fit. What fitness gives stands in specs/ and proofs/.
#![tactic(auto)]

ghost use Rattle.std.specs.Prelude.{◌≡◌, ◌≤◌, length, replicate};
ghost use Rattle.refusals.specs.Numbers.{refusal_of};
ghost use Rattle.table.specs.Refusals.{table_refusal as refusals_table_refusal};
ghost use Rattle.table.specs.Counts.{Tally};

mod fitness;

use refusals::Refusal;

// The first check that refuses the table or its widths.
pub fn table_refusal(input_width: u32, output_width: u32, table: &[u8]) -> Result<(), Refusal>
    ensures { refusal_of result ≡ refusals_table_refusal input_width output_width table.now }
{
    if refusals::outside(1, 8, input_width) {
        return Err(Refusal::InputWidth);
    }
    if refusals::outside(1, 8, output_width) {
        return Err(Refusal::OutputWidth);
    }
    if table.len() != bits::power(input_width) as usize {
        return Err(Refusal::TableLength);
    }
    let mut counts: [u16; 256] = [0; 256];
    let joined = tally(table, &mut counts);
    if bits::power(output_width) <= joined as u32 {
        return Err(Refusal::TableEntry);
    }
    if !fitness::is_fit(input_width, output_width, table, &counts) {
        return Err(Refusal::UnfitTable);
    }
    Ok(())
}

// Counts each value of the table, and joins all entries by bitwise or. The caller has checked that there are at most 256 entries,
// and hands in counts of zero, so it has a `requires`.
fn tally(table: &[u8], counts: &mut [u16; 256]) -> u8
    requires { (length table.now ≤ 256) × (counts.old ≡ replicate 256 0) }
    ensures { Tally table.now counts.new result }
{
    let size = table.len() as u16;
    let mut joined = 0;
    for i in 0..size {
        let entry = table[i as usize];
        counts[entry as usize] += 1;
        joined |= entry;
    }
    joined
}
