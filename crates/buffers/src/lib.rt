// What a lent buffer holds once something was written to it, and the calls that clear one. The laws of writing stand in proofs/.
#![tactic(auto)]

ghost use Rattle.std.specs.Prelude.{◌≡◌, length, replicate};

// Sets the whole buffer to zero. What an earlier call left in it is gone, and a later call takes it for clean scratch.
#[tactic(auto, using(crate::proofs::Front::front_begins, crate::proofs::Front::front_whole_turns, crate::proofs::Front::front_whole))]
pub fn clear(buffer: &mut [u8])
    ensures { buffer.new ≡ replicate (length buffer.old) 0 }
{
    for i in 0..buffer.len() {
        buffer[i] = 0;
    }
}

// The same of a buffer of 32-bit numbers: log entries, or counts.
#[tactic(auto, using(crate::proofs::Front::front_begins, crate::proofs::Front::front_whole_turns, crate::proofs::Front::front_whole))]
pub fn clear_numbers(numbers: &mut [u32])
    ensures { numbers.new ≡ replicate (length numbers.old) 0 }
{
    for at in 0..numbers.len() {
        numbers[at] = 0;
    }
}
