// The calls with a log for C programs that measure or audit them; each returns the refusal. Firmware links cippazhey and not this.
#![tactic(auto)]

ghost use Rattle.std.specs.Prelude.{◌≡◌};
ghost use Rattle.calls.specs.Reply.{case_from, logged_reply, logged_scratch, logged_log};
ghost use Rattle.selection.specs.Select.{selection_from, select_reply, select_log};

#[unsafe(no_mangle)]
pub extern "C" fn cippazhey_logged_call(
    method: u32,
    n: u32,
    m: u32,
    x0: u32,
    r1: u32,
    r2: u32,
    s1: u32,
    s2: u32,
    r3: u32,
    b: u32,
    table: &[u8],
    scratch: &mut [u8],
    log: &mut [u32],
) -> u32
    ensures value { result ≡ (logged_reply (case_from method n m x0 r1 r2 s1 s2 r3 b) table.now scratch.old
        log.old).refusal }
    ensures scratch_after { scratch.new ≡ logged_scratch (case_from method n m x0 r1 r2 s1 s2 r3 b) table.now
        scratch.old log.old }
    ensures log_after { log.new ≡ logged_log (case_from method n m x0 r1 r2 s1 s2 r3 b) table.now scratch.old
        log.old }
{
    let answer = calls::logged_call(method, n, m, x0, r1, r2, s1, s2, r3, b, table, scratch, log);
    refusals::refusal_number(&answer)
}

#[unsafe(no_mangle)]
pub extern "C" fn cippazhey_logged_select(
    width: u32,
    z0: u32,
    z1: u32,
    z2: u32,
    c0: u32,
    c1: u32,
    c2: u32,
    t1: u32,
    t2: u32,
    b: u32,
    log: &mut [u32],
) -> u32
    ensures value { result ≡ (select_reply (selection_from width z0 z1 z2 c0 c1 c2 t1 t2 b) log.old).refusal }
    ensures log_after { log.new ≡ select_log (selection_from width z0 z1 z2 c0 c1 c2 t1 t2 b) log.old }
{
    let chosen = selection::select(width, z0, z1, z2, c0, c1, c2, t1, t2, b, log);
    refusals::refusal_number(&chosen)
}
