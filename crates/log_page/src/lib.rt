// The page of a log: lines of five entries, a line for each kind that occurs, and the total. The caller's output is long enough for it, and
// kinds are known, so the functions here have a `requires`.
#![tactic(auto)]

ghost use Rattle.std.specs.Prelude.{◌≡◌, false, map, ◌+◌, ◌*◌, ◌-◌, ◌≤◌, length};
ghost use Rattle.refusals.specs.Tests.{any_from};
ghost use Rattle.buffers.specs.Written.{written, in_front};
ghost use Rattle.lookup.specs.Entry.{kind_of, kind_limit};
ghost use Rattle.log_page.specs.Page.{entry_columns, side_by_side, blanks, filled, lines_of_five, lines_needed};
ghost use Rattle.log_page.specs.Page.{kind_line, kind_lines, KindsCounted, total_line, page_of};

// Prints the page in front in the output, and returns the count of its bytes. Five entries take 81 bytes, so n of them at most 17n + 64; below
// them stand at most 31 lines of 17.
pub fn put_page(output: &mut [u8], log: &[u32]) -> usize
    requires log_len_bound { (length log.now ≤ 2400) × (17 * length log.now + 600 ≤ length output.old) }
    requires log_value { any_from kind_limit (map kind_of log.now) ≡ false }
    ensures value { result ≡ length (page_of log.now) }
    ensures output_after { output.new ≡ in_front (page_of log.now) output.old }
{
    let kinds = put_entry_lines(output, log);
    let total = put_kind_lines(output, kinds, log);
    put_total(output, total, log.len() as u32);
    total + 17
}

// Lines of five entries each. Returns where they end.
fn put_entry_lines(output: &mut [u8], log: &[u32]) -> usize
    requires { (length log.now ≤ 2400) × (17 * length log.now + 600 ≤ length output.old) }
    ensures value { result ≡ length (lines_of_five (lines_needed (length log.now)) log.now) }
    ensures output_after { output.new ≡ written output.old 0
        (lines_of_five (lines_needed (length log.now)) log.now) }
{
    for (k, entries) in log.chunks(5).enumerate() {
        put_entry_line(output, 81 * k, 5 * k as u32, entries);
    }
    81 * log.len().div_ceil(5)
}

// Up to five entries, spaces up to 80 columns, and a line feed.
fn put_entry_line(output: &mut [u8], at: usize, position: u32, entries: &[u32])
    requires { (length entries.now ≤ 5) × (position ≤ 2400) × (at + 81 ≤ length output.old) }
    ensures { output.new ≡ written output.old at (filled 80 (side_by_side position entries.now)) }
{
    put_entries(output, at, position, entries);
    let used = 16 * entries.len();
    put_spaces(output, at + used, 80 - used);
    output[at + 80] = b'\n';
}

fn put_entries(output: &mut [u8], at: usize, position: u32, entries: &[u32])
    requires { (length entries.now ≤ 5) × (position ≤ 2400) × (at + length entries.now * 16 ≤ length output.old) }
    ensures { output.new ≡ written output.old at (side_by_side position entries.now) }
{
    for (i, entry) in entries.iter().enumerate() {
        put_entry(output, at + 16 * i, position + i as u32, *entry);
    }
}

// An entry's position, kind and value.
fn put_entry(output: &mut [u8], at: usize, position: u32, entry: u32)
    requires { at + 16 ≤ length output.old }
    ensures { output.new ≡ written output.old at (entry_columns position entry) }
{
    let kind = log_entries::kind(entry);
    let value = log_entries::value(entry);
    field::print(output, at, 6, position);
    field::print(output, at + 6, 4, kind);
    field::print(output, at + 10, 6, value);
}

fn put_spaces(output: &mut [u8], at: usize, count: usize)
    requires { at + count ≤ length output.old }
    ensures { output.new ≡ written output.old at (blanks count) }
{
    output[at..at + count].fill(b' ');
}

// A line for each kind that occurs, from a position on. Returns where they end.
fn put_kind_lines(output: &mut [u8], at: usize, log: &[u32]) -> usize
    requires log_len_bound { (length log.now ≤ 2400) × (at + 510 ≤ length output.old) }
    requires log_value { any_from kind_limit (map kind_of log.now) ≡ false }
    ensures value { result ≡ at + length (kind_lines kind_limit log.now) }
    ensures output_after { output.new ≡ written output.old at (kind_lines kind_limit log.now) }
{
    let counts = count_kinds(log);
    let mut next = at;
    for (kind, times) in counts.iter().enumerate() {
        next = put_kind(output, next, kind as u32, *times);
    }
    next
}

// The line of a kind, if it occurs. Returns where it ends.
fn put_kind(output: &mut [u8], at: usize, kind: u32, times: u32) -> usize
    requires { at + 17 ≤ length output.old }
    ensures value { result ≡ at + length (kind_line kind times) }
    ensures output_after { output.new ≡ written output.old at (kind_line kind times) }
{
    if times == 0 {
        return at;
    }
    field::print(output, at, 6, kind);
    log_print::put_line(output, at + 6, 10, &[times]);
    at + 17
}

// How often each kind stands in the log.
fn count_kinds(log: &[u32]) -> [u32; 30]
    requires log_len_bound { length log.now ≤ 2400 }
    requires log_value { any_from kind_limit (map kind_of log.now) ≡ false }
    ensures { KindsCounted log.now result }
{
    let mut counts = [0u32; 30];
    for entry in log {
        counts[log_entries::kind(*entry) as usize] += 1;
    }
    counts
}

// Six spaces and the total.
fn put_total(output: &mut [u8], at: usize, total: u32)
    requires { at + 17 ≤ length output.old }
    ensures { output.new ≡ written output.old at (total_line total) }
{
    put_spaces(output, at, 6);
    log_print::put_line(output, at + 6, 10, &[total]);
}
