// The logged and the plain call: masked table lookup on three shares, under one of the methods 2, 3 and 5.
#![tactic(auto)]

ghost use Rattle.std.specs.Prelude.{◌≡◌};
ghost use Rattle.lookup.specs.Refusals.{logged_refusal};
ghost use Rattle.lookup.specs.Called.{handed_call};
ghost use Rattle.calls.specs.Reply.{case_from, plain_reply, plain_scratch, logged_reply, logged_scratch, logged_log};

use lookup::{Answered, Case};
use refusals::Refusal;

// The lookup with every value that it handles in the log. It is for the bench; it returns the answer share and the count of entries. The
// scratch must begin with zeros, and is left used: its caller clears it (`buffers::clear`).
pub fn logged_call(
    method: u32,
    n: u32,
    m: u32,
    x0: u32,
    r1: u32,
    r2: u32,
    s1: u32,
    s2: u32,
    r3: u32,
    b: u32,
    table: &[u8],
    scratch: &mut [u8],
    log: &mut [u32],
) -> Result<Answered, Refusal>
    ensures value { handed_call result ≡ logged_reply (case_from method n m x0 r1 r2 s1 s2 r3 b) table.now scratch.old
        log.old }
    ensures scratch_after { scratch.new ≡ logged_scratch (case_from method n m x0 r1 r2 s1 s2 r3 b) table.now
        scratch.old log.old }
    ensures log_after { log.new ≡ logged_log (case_from method n m x0 r1 r2 s1 s2 r3 b) table.now scratch.old
        log.old }
{
    logged(
        Case {
            method,
            n,
            m,
            x0,
            r1,
            r2,
            s1,
            s2,
            r3,
            b,
        },
        table,
        scratch,
        log,
    )
}

// The same lookup without a log, on such scratch; the count is 0.
pub fn plain_call(
    method: u32,
    n: u32,
    m: u32,
    x0: u32,
    r1: u32,
    r2: u32,
    s1: u32,
    s2: u32,
    r3: u32,
    b: u32,
    table: &[u8],
    scratch: &mut [u8],
) -> Result<Answered, Refusal>
    ensures value { handed_call result ≡ plain_reply (case_from method n m x0 r1 r2 s1 s2 r3 b) table.now scratch.old }
    ensures scratch_after { scratch.new ≡ plain_scratch (case_from method n m x0 r1 r2 s1 s2 r3 b) table.now
        scratch.old }
{
    plain(
        Case {
            method,
            n,
            m,
            x0,
            r1,
            r2,
            s1,
            s2,
            r3,
            b,
        },
        table,
        scratch,
    )
}

// The same of a case: what `logged_call` is to ten numbers.
pub fn logged(
    case: Case,
    table: &[u8],
    scratch: &mut [u8],
    log: &mut [u32],
) -> Result<Answered, Refusal>
    ensures value { handed_call result ≡ logged_reply case table.now scratch.old log.old }
    ensures scratch_after { scratch.new ≡ logged_scratch case table.now scratch.old log.old }
    ensures log_after { log.new ≡ logged_log case table.now scratch.old log.old }
{
    call_checks::refused_logged(case, table, scratch, log)?;
    Ok(run_accepted(case, table, scratch, log))
}

// The run of a logged call that is accepted. Its caller has made the checks, so it has a `requires`.
pub fn run_accepted(case: Case, table: &[u8], scratch: &mut [u8], log: &mut [u32]) -> Answered
    requires { logged_refusal case table.now scratch.old log.old ≡ 0 }
    ensures value { handed_call (Ok result) ≡ logged_reply case table.now scratch.old log.old }
    ensures scratch_after { scratch.new ≡ logged_scratch case table.now scratch.old log.old }
    ensures log_after { log.new ≡ logged_log case table.now scratch.old log.old }
{
    let count = methods::log_length(case.method, case.n);
    let share = methods::run_logged(case, table, scratch, log);
    Answered {
        share: share as u32,
        count: count as u32,
    }
}

fn plain(case: Case, table: &[u8], scratch: &mut [u8]) -> Result<Answered, Refusal>
    ensures value { handed_call result ≡ plain_reply case table.now scratch.old }
    ensures scratch_after { scratch.new ≡ plain_scratch case table.now scratch.old }
{
    call_checks::refused_plain(case, table, scratch)?;
    let share = methods::run(case, table, scratch);
    Ok(Answered {
        share: share as u32,
        count: 0,
    })
}
