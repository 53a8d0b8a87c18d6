// The page print: the wall-cabinet page that answers a case sheet.
#![tactic(auto)]

ghost use Rattle.std.specs.Prelude.{◌≡◌, length};
ghost use Rattle.buffers.specs.Written.{in_front};
ghost use Rattle.page_print.specs.Print.{page};

// Prints the page of the input's log in front in the output, or the number of a refusal, and returns the count of its bytes. The output is
// long enough for any page: the longest has 37,826 bytes.
pub fn print(input: &[u8], output: &mut [u8; 40960]) -> usize
    ensures value { result ≡ length (page input.now) }
    ensures output_after { output.new ≡ in_front (page input.now) output.old }
{
    let mut log = [0u32; 2400];
    match sheet_call::answer(input, &mut log) {
        Ok(answered) => log_page::put_page(output, &log[..answered.count as usize]),
        Err(refusal) => log_print::put_refusal(output, refusal.number()),
    }
}
