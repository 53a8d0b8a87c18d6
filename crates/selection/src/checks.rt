// The refusals of a selection, in their order. Each number is compared by itself: no value is formed of two of them.
ghost use Rattle.refusals.specs.Numbers.{refusal_of};
ghost use Rattle.std.specs.Prelude.{◌≡◌, ◌≤◌};
ghost use Rattle.refusals.specs.Checks.{first_of};
ghost use Rattle.selection.specs.Select.{word_checks, bit_checks, mask_checks, plain_select_refusal};

use halves::Selection;
use refusals::Refusal;

// 20 and 21
pub fn refused(selection: Selection) -> Result<(), Refusal>
    ensures { refusal_of result ≡ plain_select_refusal selection }
{
    if refusals::outside(1, 8, selection.width) {
        return Err(Refusal::SelectionWidth);
    }
    refused_words(selection)?;
    refused_bits(selection)?;
    refused_masks(selection)
}

// The width has been checked, so it has a `requires`.
#[tactic(auto, using(crate::proofs::Checking::word_laws))]
fn refused_words(selection: Selection) -> Result<(), Refusal>
    requires { selection.width ≤ 8 }
    ensures { refusal_of result ≡ first_of (word_checks selection) }
{
    let words = bits::power(2 * selection.width);
    if words <= selection.z0 {
        return Err(Refusal::SelectionInput);
    }
    if words <= selection.z1 {
        return Err(Refusal::SelectionInput);
    }
    if words <= selection.z2 {
        return Err(Refusal::SelectionInput);
    }
    Ok(())
}

// The limit comes through a barrier: where the compiler knows it to be 2, it compares c1 | c2 | b with it at once. t1 is the index.
#[tactic(auto, using(crate::proofs::Checking::bit_laws))]
fn refused_bits(selection: Selection) -> Result<(), Refusal>
    ensures { refusal_of result ≡ first_of (bit_checks selection) }
{
    let two = lookup::value_barrier(2, selection.t1) as u32;
    if two <= selection.c0 {
        return Err(Refusal::SelectionInput);
    }
    if two <= selection.c1 {
        return Err(Refusal::SelectionInput);
    }
    if two <= selection.c2 {
        return Err(Refusal::SelectionInput);
    }
    if two <= selection.b {
        return Err(Refusal::SelectionInput);
    }
    Ok(())
}

// The width has been checked, so it has a `requires`.
#[tactic(auto, using(crate::proofs::Checking::mask_laws))]
fn refused_masks(selection: Selection) -> Result<(), Refusal>
    requires { selection.width ≤ 8 }
    ensures { refusal_of result ≡ first_of (mask_checks selection) }
{
    let halves = bits::power(selection.width);
    if halves <= selection.t1 {
        return Err(Refusal::SelectionInput);
    }
    if halves <= selection.t2 {
        return Err(Refusal::SelectionInput);
    }
    Ok(())
}
