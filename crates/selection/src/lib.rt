// Choosing one half of a word by a bit, both in three shares, by Algorithm 4 of Rivain, Dottax and Prouff: with a log for the bench, and
// without one. Neither the word nor the bit is ever formed.
#![tactic(auto)]

ghost use Rattle.refusals.specs.Numbers.{refusal_of};
ghost use Rattle.selection.specs.Selected.{handed_selection};
ghost use Rattle.std.specs.Prelude.{◌≡◌};
ghost use Rattle.selection.specs.Select.{selection_from, select_reply, select_log, plain_select_refusal, plain_select_share};

mod checks;
mod logged;

use halves::{BoundedSelection, Selection};
use refusals::Refusal;

// What an accepted call hands back: the three shares of the half, and the count of log entries.
#[derive(Clone, Copy)]
pub struct HalfShares {
    pub first: u32,
    pub second: u32,
    pub third: u32,
    pub count: u32,
}

// The choice with every value that it handles in the log. It is for the bench.
pub fn select(
    width: u32,
    z0: u32,
    z1: u32,
    z2: u32,
    c0: u32,
    c1: u32,
    c2: u32,
    t1: u32,
    t2: u32,
    b: u32,
    log: &mut [u32],
) -> Result<HalfShares, Refusal>
    ensures value { handed_selection result ≡ select_reply (selection_from width z0 z1 z2 c0 c1 c2 t1 t2 b) log.old }
    ensures log_after { log.new ≡ select_log (selection_from width z0 z1 z2 c0 c1 c2 t1 t2 b) log.old }
{
    let selection = Selection {
        width,
        z0,
        z1,
        z2,
        c0,
        c1,
        c2,
        t1,
        t2,
        b,
    };
    checks::refused(selection)?;
    let Some(front) = log.first_chunk_mut() else {
        return Err(Refusal::ShortLog);
    };
    Ok(logged::run(BoundedSelection { selection }, front))
}

// The same choice without a log. Accepted, it puts each share of the half in a place of its own.
pub fn plain_select(
    width: u32,
    z0: u32,
    z1: u32,
    z2: u32,
    c0: u32,
    c1: u32,
    c2: u32,
    t1: u32,
    t2: u32,
    b: u32,
    share0: &mut u8,
    share1: &mut u8,
    share2: &mut u8,
) -> Result<(), Refusal>
    ensures value { refusal_of result ≡ plain_select_refusal (selection_from width z0 z1 z2 c0 c1 c2 t1 t2 b) }
    ensures share0_after { share0.new ≡ plain_select_share 0 (selection_from width z0 z1 z2 c0 c1 c2 t1 t2 b) share0.old }
    ensures share1_after { share1.new ≡ plain_select_share 1 (selection_from width z0 z1 z2 c0 c1 c2 t1 t2 b) share1.old }
    ensures share2_after { share2.new ≡ plain_select_share 2 (selection_from width z0 z1 z2 c0 c1 c2 t1 t2 b) share2.old }
{
    let selection = Selection {
        width,
        z0,
        z1,
        z2,
        c0,
        c1,
        c2,
        t1,
        t2,
        b,
    };
    checks::refused(selection)?;
    halves::run(selection, share0, share1, share2);
    Ok(())
}
