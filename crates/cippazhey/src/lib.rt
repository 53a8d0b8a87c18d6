// What C links: the plain call as one 16-bit number, refusal × 256 + share, the choice of one half of a word, the clearing of a buffer, a
// frame of AES-128, and the screening of a run of random bytes. include/cippazhey.h declares all five.
#![tactic(auto)]

ghost use Rattle.std.specs.Prelude.{◌≡◌, length, replicate};
ghost use Rattle.calls.specs.Reply.{case_from, plain_reply, plain_scratch};
ghost use Rattle.selection.specs.Select.{selection_from, plain_select_refusal, plain_select_share};
ghost use Rattle.frame.specs.Frame.{frame_refusal, frame_scratch};
ghost use Rattle.screening.specs.Report.{report};
ghost use Rattle.cippazhey.specs.Export.{exported, exported_share, exported_report};

#[unsafe(no_mangle)]
pub extern "C" fn cippazhey_plain_call(
    method: u32,
    n: u32,
    m: u32,
    x0: u32,
    r1: u32,
    r2: u32,
    s1: u32,
    s2: u32,
    r3: u32,
    b: u32,
    table: &[u8],
    scratch: &mut [u8],
) -> u16
    ensures value { result ≡ exported (plain_reply (case_from method n m x0 r1 r2 s1 s2 r3 b) table.now scratch.old) }
    ensures scratch_after { scratch.new ≡ plain_scratch (case_from method n m x0 r1 r2 s1 s2 r3 b) table.now
        scratch.old }
{
    match calls::plain_call(method, n, m, x0, r1, r2, s1, s2, r3, b, table, scratch) {
        Ok(answered) => answered.share as u16,
        Err(refusal) => (refusal.number() * 256) as u16,
    }
}

#[unsafe(no_mangle)]
pub extern "C" fn cippazhey_select(
    width: u32,
    z0: u32,
    z1: u32,
    z2: u32,
    c0: u32,
    c1: u32,
    c2: u32,
    t1: u32,
    t2: u32,
    b: u32,
    share0: &mut u8,
    share1: &mut u8,
    share2: &mut u8,
) -> u32
    ensures value { result ≡ plain_select_refusal (selection_from width z0 z1 z2 c0 c1 c2 t1 t2 b) }
    ensures share0_after { share0.new ≡ plain_select_share 0 (selection_from width z0 z1 z2 c0 c1 c2 t1 t2 b) share0.old }
    ensures share1_after { share1.new ≡ plain_select_share 1 (selection_from width z0 z1 z2 c0 c1 c2 t1 t2 b) share1.old }
    ensures share2_after { share2.new ≡ plain_select_share 2 (selection_from width z0 z1 z2 c0 c1 c2 t1 t2 b) share2.old }
{
    let answer = selection::plain_select(
        width, z0, z1, z2, c0, c1, c2, t1, t2, b, share0, share1, share2,
    );
    refusals::refusal_number(&answer)
}

#[unsafe(no_mangle)]
pub extern "C" fn cippazhey_clear(buffer: &mut [u8])
    ensures { buffer.new ≡ replicate (length buffer.old) 0 }
{
    buffers::clear(buffer);
}

#[unsafe(no_mangle)]
pub extern "C" fn cippazhey_encrypt_frame(
    plaintext: &[[u8; 4]; 4],
    key1: &[[u8; 4]; 4],
    key2: &[[u8; 4]; 4],
    key3: &[[u8; 4]; 4],
    random: &[u8],
    scratch: &mut [u8],
    share1: &mut [u8; 16],
    share2: &mut [u8; 16],
    share3: &mut [u8; 16],
) -> u32
    ensures value { result ≡ frame_refusal random.now scratch.old }
    ensures scratch_after { scratch.new ≡ frame_scratch random.now scratch.old }
    ensures share1_after { share1.new ≡ exported_share 0 plaintext.now key1.now key2.now key3.now
        random.now scratch.old share1.old }
    ensures share2_after { share2.new ≡ exported_share 1 plaintext.now key1.now key2.now key3.now
        random.now scratch.old share2.old }
    ensures share3_after { share3.new ≡ exported_share 2 plaintext.now key1.now key2.now key3.now
        random.now scratch.old share3.old }
{
    match frame::encrypt_frame(*plaintext, *key1, *key2, *key3, random, scratch) {
        Ok(ciphertext) => {
            let first = ciphertext.share1;
            *share1 = first;
            let second = ciphertext.share2;
            *share2 = second;
            let third = ciphertext.share3;
            *share3 = third;
            0
        }
        Err(refusal) => refusal.number(),
    }
}

#[tactic(auto, unfolding(crate::specs::Export::exported_report, crate::specs::Export::no_fault))]
#[unsafe(no_mangle)]
pub extern "C" fn cippazhey_screen(run: &[u8]) -> u64
    ensures { result ≡ exported_report (report run.now) }
{
    match screening::screen(run) {
        Some(start) => start as u64,
        None => 0xffff_ffff_ffff_ffff,
    }
}
