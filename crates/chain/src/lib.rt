// Two lookups in a row, each with every value that it handles in a log of its own. The first's output shares go straight into the second:
// its answer is the second's x0, and its output masks s1 and s2 are the second's r1 and r2. What the first looks up is never joined.
#![tactic(auto)]

ghost use Rattle.std.specs.Prelude.{◌≡◌};
ghost use Rattle.refusals.specs.Numbers.{refusal_of};
ghost use Rattle.chain.specs.Chained.{handed_chain};
ghost use Rattle.chain.specs.Lent.{lent};
ghost use Rattle.chain.specs.Chain.{second_case as chain_second_case, chain_refusal, chain_reply};
ghost use Rattle.chain.specs.Chain.{chain_first_scratch, chain_second_scratch, chain_first_log, chain_second_log};

use lookup::Case;
use refusals::Refusal;

// What the second call has of its own: its method and widths, its output masks, r3 and b.
#[derive(Clone, Copy)]
pub struct Second {
    pub method: u32,
    pub n: u32,
    pub m: u32,
    pub s1: u32,
    pub s2: u32,
    pub r3: u32,
    pub b: u32,
}

// What an accepted chain hands back: the second call's answer share, and the counts of both logs' entries.
#[derive(Clone, Copy)]
pub struct ChainAnswered {
    pub share: u32,
    pub first_count: u32,
    pub second_count: u32,
}

// What is lent to one of the calls, as its checks look at it.
#[derive(Clone, Copy)]
struct Buffers<'a> {
    table: &'a [u8],
    scratch: &'a [u8],
    log: &'a [u32],
}

// Both lookups. As the logged call it is for the bench: it returns the second answer share and the counts of both logs' entries. All
// checks of both come before anything is written. Both scratches must begin with zeros, and are left used: the caller clears them
// (`buffers::clear`).
#[tactic(auto, using(crate::proofs::Replies::replies))]
pub fn chained_call(
    first: Case,
    second: Second,
    first_table: &[u8],
    second_table: &[u8],
    first_scratch: &mut [u8],
    second_scratch: &mut [u8],
    first_log: &mut [u32],
    second_log: &mut [u32],
) -> Result<ChainAnswered, Refusal>
    ensures value { handed_chain result ≡ chain_reply first second (lent first_table.now second_table.now first_scratch.old
        second_scratch.old first_log.old second_log.old) }
    ensures first_scratch_after { first_scratch.new ≡ chain_first_scratch first second (lent first_table.now second_table.now
        first_scratch.old second_scratch.old first_log.old second_log.old) }
    ensures second_scratch_after { second_scratch.new ≡ chain_second_scratch first second (lent first_table.now second_table.now
        first_scratch.old second_scratch.old first_log.old second_log.old) }
    ensures first_log_after { first_log.new ≡ chain_first_log first second (lent first_table.now second_table.now
        first_scratch.old second_scratch.old first_log.old second_log.old) }
    ensures second_log_after { second_log.new ≡ chain_second_log first second (lent first_table.now second_table.now
        first_scratch.old second_scratch.old first_log.old second_log.old) }
{
    let first_lent = Buffers {
        table: first_table,
        scratch: first_scratch,
        log: first_log,
    };
    let second_lent = Buffers {
        table: second_table,
        scratch: second_scratch,
        log: second_log,
    };
    refused(first, second, first_lent, second_lent)?;
    let one = calls::run_accepted(first, first_table, first_scratch, first_log);
    let later = second_case(first, second, one.share);
    let two = calls::run_accepted(later, second_table, second_scratch, second_log);
    Ok(ChainAnswered {
        share: two.share,
        first_count: one.count,
        second_count: two.count,
    })
}

// The second call's case, where the first has answered with the share.
#[tactic(auto, unfolding(crate::specs::Chain::second_case))]
fn second_case(first: Case, second: Second, share: u32) -> Case
    ensures { result ≡ chain_second_case first second share }
{
    Case {
        method: second.method,
        n: second.n,
        m: second.m,
        x0: share,
        r1: first.s1,
        r2: first.s2,
        s1: second.s1,
        s2: second.s2,
        r3: second.r3,
        b: second.b,
    }
}

// Both tables' 2 to 7; 18; the first's 10 to 13, 19 and 14; the second's. The first has not answered yet, so the second's are asked of a
// share of 0: an answer is never too large.
#[tactic(auto, using(call_checks::proofs::Checking::input_most, call_checks::proofs::Checking::output_most))]
fn refused(
    first: Case,
    second: Second,
    first_lent: Buffers,
    second_lent: Buffers,
) -> Result<(), Refusal>
    ensures { refusal_of result ≡ chain_refusal first second
        (lent first_lent.entry.table.now second_lent.entry.table.now first_lent.entry.scratch.now second_lent.entry.scratch.now
        first_lent.entry.log.now second_lent.entry.log.now) }
{
    let later = second_case(first, second, 0);
    call_checks::refused_box(first, first_lent.table)?;
    call_checks::refused_box(later, second_lent.table)?;
    if first.m != second.n {
        return Err(Refusal::UnequalWidths);
    }
    call_checks::refused_other(first, first_lent.scratch, first_lent.log)?;
    call_checks::refused_other(later, second_lent.scratch, second_lent.log)
}
