// The run with a log: the same choice, and every value that it handles stands in the log, each entry at its fixed position.
ghost use Rattle.selection.specs.Selected.{handed_selection};
ghost use Rattle.std.specs.Prelude.{◌≡◌, [], ◌∷◌, ◌+◌, ◌≤◌, ◌<◌};
ghost use Rattle.buffers.specs.Written.{written};
ghost use Rattle.log_entries.specs.Entries.{entries};
ghost use Rattle.halves.specs.Halves.{share};
ghost use Rattle.selection.specs.Log.{bit_values as log_bit_values, half_values as log_half_values, input_entries, half_entries, share_entries, log_of};
ghost use Rattle.selection.specs.Select.{selected};

use crate::HalfShares;
use halves::BoundedSelection;

// The kinds in the order of the log, behind those of the three words. docs/REFERENCE.md says what each shows.
const BITS: [u8; 8] = [11, 4, 5, 6, 7, 8, 9, 10];

const CHOSEN: [u8; 7] = [12, 13, 14, 15, 16, 17, 18];

const OTHER: [u8; 7] = [19, 20, 21, 22, 23, 25, 26];

const END: [u8; 3] = [27, 28, 29];

pub fn run(checked: BoundedSelection, log: &mut [u32; 28]) -> HalfShares
    ensures value { handed_selection (Ok result) ≡ selected 0 (share 0 checked.selection) (share 1 checked.selection) (share 2 checked.selection) }
    ensures log_after { log.new ≡ log_of checked.selection }
{
    put_inputs(checked, log);
    put_halves(checked, log);
    put_shares(checked, log)
}

#[tactic(auto, using(crate::proofs::Logging::inputs_written))]
fn put_inputs(checked: BoundedSelection, log: &mut [u32; 28])
    ensures { log.new ≡ written log.old 0 (input_entries checked.selection) }
{
    put_words(checked, log);
    put_bits(checked, log);
}

#[tactic(auto, using(crate::proofs::Logging::halves_written))]
fn put_halves(checked: BoundedSelection, log: &mut [u32; 28])
    ensures { log.new ≡ written log.old 11 (half_entries checked.selection) }
{
    let selection = checked.selection;
    put_half(checked, selection.c0, log, 11, CHOSEN);
    put_half(checked, 1 - selection.c0, log, 18, OTHER);
}

// Words have up to sixteen bits; all other values are bytes.
#[tactic(auto, using(crate::proofs::Logging::three_written))]
fn put_words(checked: BoundedSelection, log: &mut [u32; 28])
    ensures { log.new ≡ written log.old 0
        (entries (1 ∷ 2 ∷ 3 ∷ []) (checked.selection.z0 ∷ checked.selection.z1 ∷ checked.selection.z2 ∷ [])) }
{
    let selection = checked.selection;
    log[0] = log_entries::entry(1, selection.z0 as u16);
    log[1] = log_entries::entry(2, selection.z1 as u16);
    log[2] = log_entries::entry(3, selection.z2 as u16);
}

// The shares of the bit, the masks, and the place that they give a half.
fn put_bits(checked: BoundedSelection, log: &mut [u32; 28])
    ensures { log.new ≡ written log.old 3
        (entries (11 ∷ 4 ∷ 5 ∷ 6 ∷ 7 ∷ 8 ∷ 9 ∷ 10 ∷ []) (log_bit_values checked.selection)) }
{
    let values = bit_values(checked);
    log_entries::put(log, 3, &BITS, &values);
}

// What is made of the half that the bit chooses.
fn put_half(
    checked: BoundedSelection,
    bit: u32,
    log: &mut [u32; 28],
    position: usize,
    kinds: [u8; 7],
)
    requires bit_bound { bit < 2 }
    requires position_in_bounds { position + 7 ≤ 28 }
    ensures { log.new ≡ written log.old position (entries kinds (log_half_values checked.selection bit)) }
{
    let values = half_values(checked, bit);
    log_entries::put(log, position, &kinds, &values);
}

// The values of `put_bits`, in the order of the log.
#[tactic(auto, using(halves::proofs::Bounds::place_byte, crate::proofs::Logging::bits_of))]
fn bit_values(checked: BoundedSelection) -> [u8; 8]
    ensures { result ≡ log_bit_values checked.selection }
{
    let selection = checked.selection;
    [
        selection.c0 as u8,
        selection.c1 as u8,
        selection.c2 as u8,
        selection.t1 as u8,
        selection.t2 as u8,
        selection.b as u8,
        (selection.c1 ^ selection.b) as u8,
        halves::place(selection) as u8,
    ]
}

// The values of `put_half`, in the order of the log.
#[tactic(auto, using(crate::proofs::Logging::values_of))]
fn half_values(checked: BoundedSelection, bit: u32) -> [u8; 7]
    requires bit_bound { bit < 2 }
    ensures { result ≡ log_half_values checked.selection bit }
{
    let selection = checked.selection;
    let first = halves::half(selection.width, bit, selection.z0);
    let second = halves::half(selection.width, bit, selection.z1);
    let third = halves::half(selection.width, bit, selection.z2);
    let once = third ^ selection.t1 as u8;
    [
        first,
        first ^ selection.t1 as u8,
        second,
        second ^ selection.t2 as u8,
        third,
        once,
        once ^ selection.t2 as u8,
    ]
}

// The shares of the half, by the run without a log, and what the call hands back.
#[tactic(auto, using(crate::proofs::Logging::shares_written, crate::proofs::Logging::shares_handed))]
fn put_shares(checked: BoundedSelection, log: &mut [u32; 28]) -> HalfShares
    ensures value { handed_selection (Ok result) ≡ selected 0 (share 0 checked.selection) (share 1 checked.selection) (share 2 checked.selection) }
    ensures log_after { log.new ≡ written log.old 25 (share_entries checked.selection) }
{
    let mut first = 0u8;
    let mut second = 0u8;
    let mut third = 0u8;
    halves::run(checked.selection, &mut first, &mut second, &mut third);
    log_entries::put(log, 25, &END, &[first, second, third]);
    HalfShares {
        first: first as u32,
        second: second as u32,
        third: third as u32,
        count: 28,
    }
}
