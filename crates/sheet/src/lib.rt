// The bench print: what the program answers to a case sheet.
#![tactic(auto)]

ghost use Rattle.std.specs.Prelude.{◌≡◌, length};
ghost use Rattle.buffers.specs.Written.{in_front};
ghost use Rattle.sheet.specs.Print.{print as print_print};

use lookup::Answered;

// Prints the answer to the input in front in the output, and returns the count of its bytes. The output is long enough for any answer: the
// longest has 43,985 bytes.
pub fn print(input: &[u8], output: &mut [u8; 45056]) -> usize
    ensures value { result ≡ length (print_print input.now) }
    ensures output_after { output.new ≡ in_front (print_print input.now) output.old }
{
    let mut log = [0u32; 2400];
    match sheet_call::answer(input, &mut log) {
        Ok(Answered { share, count }) => {
            let entries = &log[..count as usize];
            log_print::put_answer(output, entries, share, count)
        }
        Err(refusal) => log_print::put_refusal(output, refusal.number()),
    }
}
