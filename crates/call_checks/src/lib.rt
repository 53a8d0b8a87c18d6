// The refusals of the logged and the plain call, each list of checks in its order, in the parts that a chain takes one by one.
#![tactic(auto)]

ghost use Rattle.refusals.specs.Numbers.{refusal_of};
ghost use Rattle.std.specs.Prelude.{◌≡◌, cond, ◌≤◌, leb, length};
ghost use Rattle.refusals.specs.Checks.{first_of};
ghost use Rattle.lookup.specs.Refusals.{mask_checks, scratch_checks, box_checks, other_checks, untaken as refusals_untaken, dirty as refusals_dirty};
ghost use Rattle.lookup.specs.Refusals.{case_refusal, plain_refusal, logged_refusal};

use lookup::Case;
use refusals::Refusal;

// 2 to 7, 10 to 13, 19 and 14
pub fn refused_logged(case: Case, table: &[u8], scratch: &[u8], log: &[u32]) -> Result<(), Refusal>
    ensures { refusal_of result ≡ logged_refusal case table.now scratch.now log.now }
{
    refused_box(case, table)?;
    refused_other(case, scratch, log)
}

// 2 to 7, 10 to 13, and 19
pub fn refused_plain(case: Case, table: &[u8], scratch: &[u8]) -> Result<(), Refusal>
    ensures { refusal_of result ≡ plain_refusal case table.now scratch.now }
{
    refused_case(case, table)?;
    refused_scratch(case, scratch)
}

// 2 to 7, and 10 to 12
fn refused_case(case: Case, table: &[u8]) -> Result<(), Refusal>
    ensures { refusal_of result ≡ case_refusal case table.now }
{
    refused_box(case, table)?;
    refused_masks(case)
}

// 2 to 7
pub fn refused_box(case: Case, table: &[u8]) -> Result<(), Refusal>
    ensures { refusal_of result ≡ first_of (box_checks case table.now) }
{
    if !methods::known(case.method) {
        return Err(Refusal::UnknownMethod);
    }
    table::table_refusal(case.n, case.m, table)
}

// A logged call's other checks: 10 to 13, 19 and 14. The widths have been checked, so it has a `requires`.
pub fn refused_other(case: Case, scratch: &[u8], log: &[u32]) -> Result<(), Refusal>
    requires n_bound { case.n ≤ 8 }
    requires m_bound { case.m ≤ 8 }
    ensures { refusal_of result ≡ first_of (other_checks case scratch.now log.now) }
{
    refused_masks(case)?;
    refused_scratch(case, scratch)?;
    if log.len() < methods::log_length(case.method, case.n) {
        return Err(Refusal::ShortLog);
    }
    Ok(())
}

// 10 to 12. The widths have been checked, so it has a `requires`.
fn refused_masks(case: Case) -> Result<(), Refusal>
    requires n_bound { case.n ≤ 8 }
    requires m_bound { case.m ≤ 8 }
    ensures { refusal_of result ≡ first_of (mask_checks case) }
{
    let inputs = bits::power(case.n);
    if inputs <= case.x0 {
        return Err(Refusal::Input);
    }
    if inputs <= case.r1 {
        return Err(Refusal::Input);
    }
    if inputs <= case.r2 {
        return Err(Refusal::Input);
    }
    if inputs <= case.r3 {
        return Err(Refusal::Input);
    }
    let outputs = bits::power(case.m);
    if outputs <= case.s1 {
        return Err(Refusal::OutputMask);
    }
    if outputs <= case.s2 {
        return Err(Refusal::OutputMask);
    }
    if untaken(case) {
        return Err(Refusal::UntakenMask);
    }
    Ok(())
}

// An r3 or a b that the method does not take. The width has been checked, so it has a `requires`.
fn untaken(case: Case) -> bool
    requires { case.n ≤ 8 }
    ensures { result ≡ refusals_untaken case }
{
    if methods::r3_most(case.method, case.n) < case.r3 {
        return true;
    }
    methods::b_most(case.method) < case.b
}

// 13 and 19. The width has been checked, so it has a `requires`.
fn refused_scratch(case: Case, scratch: &[u8]) -> Result<(), Refusal>
    requires { case.n ≤ 8 }
    ensures { refusal_of result ≡ first_of (scratch_checks case scratch.now) }
{
    let size = methods::scratch_length(case.method, case.n);
    if scratch.len() < size as usize {
        return Err(Refusal::ShortScratch);
    }
    if dirty(scratch, size) {
        return Err(Refusal::DirtyScratch);
    }
    Ok(())
}

// Whether one of the first bytes is not zero. What an earlier call left is handled a byte at a time, and no value is formed of two bytes but
// the one bit that is returned: each marks one of two cells, the second where it is not zero, and none ends the loop. Two of them, or the
// place of the first that is not zero, beside r3 can tell of the earlier call's input. Only tests/audit guards that: a loop that joins the
// bytes or stops at one is proved too.
fn dirty(scratch: &[u8], size: u16) -> bool
    requires { size ≤ length scratch.now }
    ensures { result ≡ refusals_dirty size scratch.now }
{
    let mut cells: [u8; 2] = [0, 0];
    for i in 0..size {
        let at = cell(scratch[i as usize]);
        cells[at] = 1;
    }
    cells[1] != 0
}

// The cell that a byte marks, by a sum and a quotient: with a test in their place the compiler keeps the cells in registers and joins
// the bytes' tests there.
fn cell(byte: u8) -> usize
    ensures { result ≡ cond (leb 1 byte) 1 0 }
{
    (byte as usize + 255) / 256
}
