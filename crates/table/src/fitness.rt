// Whether a table is fit, from the counts of its values. The caller has checked the widths, the length and the size of the entries: what the
// functions need of that is their `requires`. Nothing here looks at a share.
ghost use Rattle.std.specs.Prelude.{◌≡◌, ◌^◌, ◌≤◌, ◌<◌};
ghost use Rattle.bits.specs.Xor.{◌⊕◌};
ghost use Rattle.table.specs.Balanced.{at};
ghost use Rattle.table.specs.Fit.{fit};
ghost use Rattle.table.specs.Counts.{Counted, JoinedCounts, DifferenceFound, period, all_periods as counts_all_periods};

// Where m is at most n and no value stands in the table more than 2^(n - m) times, each value below 2^m stands in it just so often: it is
// balanced, so fit, and no period is looked for.
pub fn is_fit(input_width: u32, output_width: u32, table: &[u8], counts: &[u16; 256]) -> bool
    requires { Counted input_width output_width table.now counts.now }
    ensures { result ≡ fit input_width output_width table.now }
{
    if output_width <= input_width {
        if joined_counts(counts) as u32 <= bits::power(input_width - output_width) {
            return true;
        }
    }
    all_periods(counts, table[0], output_width)
}

// All counts joined by bitwise or: in a balanced table the one that all values below 2^m have. All 256 are joined at every width, so that
// every width runs the same code.
fn joined_counts(counts: &[u16; 256]) -> u16
    ensures { JoinedCounts counts.now result }
{
    let mut joined = 0;
    for value in 0..256u16 {
        joined |= counts[value as usize];
    }
    joined
}

// Whether each difference of the first entry and another is a period of the counts. One for each highest bit is enough. Let d be one that is
// a period, and e another with the same highest bit: then e ⊕ d is again a difference of the first entry and another, with a lower highest
// bit.
fn all_periods(counts: &[u16; 256], first: u8, output_width: u32) -> bool
    requires { (output_width ≤ 8) × (first < 2 ^ output_width) }
    ensures { result ≡ counts_all_periods (2 ^ output_width) counts.now first }
{
    let limit = bits::power(output_width) as u16;
    for bit in 0..output_width {
        let difference = find_difference(counts, first, bit);
        if !is_period(counts, difference, limit) {
            return false;
        }
    }
    true
}

// A difference of the first entry and another that has this highest bit, or 0 where there is none.
fn find_difference(counts: &[u16; 256], first: u8, bit: u32) -> u16
    requires { bit < 8 }
    ensures { DifferenceFound counts.now first bit result }
{
    let low = bits::power(bit) as u16;
    let end = low * 2;
    for difference in low..end {
        if count_at(counts, first as u16, difference) != 0 {
            return difference;
        }
    }
    0
}

// Whether shifting every value below the limit by the difference changes no count. 0 is a period of any counts.
fn is_period(counts: &[u16; 256], difference: u16, limit: u16) -> bool
    requires { (difference < 256) × (limit ≤ 256) }
    ensures { result ≡ period limit counts.now difference }
{
    if difference == 0 {
        return true;
    }
    for value in 0..limit {
        if count_at(counts, value, difference) != counts[value as usize] {
            return false;
        }
    }
    true
}

// The count of the value that differs from another by the difference.
fn count_at(counts: &[u16; 256], value: u16, difference: u16) -> u16
    requires { (value < 256) × (difference < 256) }
    ensures { result ≡ at counts.now (value ⊕ difference) }
{
    counts[(value ^ difference) as usize]
}
