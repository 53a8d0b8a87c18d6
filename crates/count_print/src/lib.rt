// The count print: what the program answers to a probe sheet.
#![tactic(auto)]

ghost use Rattle.std.specs.Prelude.{◌≡◌, length};
ghost use Rattle.buffers.specs.Written.{in_front};
ghost use Rattle.count_print.specs.Print.{print as print_print, reply as print_reply, pair_read};

use count_sheet::ProbePair;
use refusals::Refusal;

// Prints the answer to the input in front in the output, and returns the count of its bytes. The output is long enough for any answer.
#[tactic(auto, using(crate::proofs::Prints::print_laws))]
pub fn print(input: &[u8], output: &mut [u8; 1024]) -> usize
    ensures value { result ≡ length (print_print input.now) }
    ensures output_after { output.new ≡ in_front (print_print input.now) output.old }
{
    let mut numbers = [0u32; 6];
    let mut table = [0u32; 256];
    let six_columns = case_sheet::six_columns();
    let Some(entries) = case_sheet::read_numbers(input, six_columns, &mut numbers, &mut table)
    else {
        return log_print::put_refusal(output, Refusal::MalformedInput.number());
    };
    let pair = pair_from(numbers);
    let table = &table[..entries];
    if let Err(refusal) = wide_table::wide_refusal(pair.method, pair.n, pair.m, table) {
        return log_print::put_refusal(output, refusal.number());
    }
    let mut bytes = [0u8; 256];
    wide_table::narrow(table, &mut bytes);
    reply(pair, &bytes[..entries], output)
}

// The probe pair of the six numbers of its line.
#[tactic(auto, unfolding(crate::specs::Print::pair_read))]
fn pair_from(numbers: [u32; 6]) -> ProbePair
    ensures { result ≡ pair_read numbers }
{
    let [method, n, m, secret, first, second] = numbers;
    ProbePair {
        method,
        n,
        m,
        secret,
        first,
        second,
    }
}

// The answer to a pair. Scratch and log are long enough for any table that is let in, sheet and output for n and m up to 3.
#[tactic(auto, using(crate::proofs::Replies::reply_laws))]
fn reply(pair: ProbePair, table: &[u8], output: &mut [u8; 1024]) -> usize
    ensures value { result ≡ length (print_reply pair table.now) }
    ensures output_after { output.new ≡ in_front (print_reply pair table.now) output.old }
{
    let mut scratch = [0u8; 512];
    let mut log = [0u32; 2400];
    let mut sheet = [0u32; 64];
    if let Err(refusal) = count_sheet::count_sheet(
        pair,
        table,
        &mut scratch,
        &mut log,
        &mut sheet,
    ) {
        return log_print::put_refusal(output, refusal.number());
    }
    let side = bits::power(pair.n.max(pair.m)) as usize;
    log_print::put_counts(output, &sheet[..side * side], side)
}
