// A frame's lookups: of a byte, a word and a state. Each begins with cleared scratch. The frame has measured its buffers, so these have a
// `requires`. The random bytes of a lookup begin at `p`, and the next lookup's are the three behind them.
#![tactic(auto)]

ghost use Rattle.std.specs.Prelude.{◌≡◌, ◌+◌, ◌*◌, ◌^◌, ◌≤◌, ◌<◌, length};
ghost use Rattle.sbox.specs.Sbox.{sbox};
ghost use Rattle.lookup.specs.Bounded.{Bounded};
ghost use Rattle.lookup.specs.Method2.{scratch_2, answer_2};
ghost use Rattle.frame_lookups.specs.Scratch.{cleared};
ghost use Rattle.frame_lookups.specs.Lookups.{
  position as lookups_position,
  case_2,
  answered,
  filled,
  word_answers as lookups_word_answers,
  word_masks as lookups_word_masks,
  column_answers as lookups_column_answers,
  state_answers as lookups_state_answers,
  state_masks as lookups_state_masks,
};

use lookup::Case;

// Clears the first 256 bytes.
#[tactic(auto, using(crate::proofs::Clearing::part_cleared))]
pub fn clear(scratch: &mut [u8])
    requires { 256 ≤ length scratch.old }
    ensures { scratch.new ≡ cleared scratch.old }
{
    buffers::clear(&mut scratch[0..256]);
}

// The method's run, which takes any scratch. A frame's lookups begin with cleared scratch, so this asks for it.
fn run(case: Case, table: &[u8], scratch: &mut [u8]) -> u8
    requires scratch_value { scratch.old ≡ cleared scratch.old }
    requires in_bounds { 256 ≤ length scratch.old }
    requires bounded { Bounded case }
    requires n_value { 2 ^ case.n ≡ 256 }
    requires table_value { table.now ≡ sbox }
    ensures scratch_after { scratch.new ≡ scratch_2 256 case sbox scratch.old }
    ensures value { result ≡ answer_2 case sbox }
    ensures scratch_after_2 { cleared scratch.new ≡ scratch.old }
{
    method2::run(case, table, scratch)
}

// A case of bytes: nothing of it is left to check.
#[tactic(auto, using(crate::proofs::Cases::bytes_bounded), unfolding(crate::specs::Lookups::case_2))]
fn make_case(x0: u8, r1: u8, r2: u8, s1: u8, s2: u8, r3: u8) -> Case
    ensures value { result ≡ case_2 x0 r1 r2 s1 s2 r3 }
    ensures bounded { Bounded result }
    ensures n_value { 2 ^ result.n ≡ 256 }
{
    Case {
        method: 2,
        n: 8,
        m: 8,
        x0: x0 as u32,
        r1: r1 as u32,
        r2: r2 as u32,
        s1: s1 as u32,
        s2: s2 as u32,
        r3: r3 as u32,
        b: 0,
    }
}

// The answer for a byte whose three shares are x0, r1 and r2. What it leaves in the scratch is said too: the answer alone does not depend on
// r3, nor on the method.
fn answer(x0: u8, r1: u8, r2: u8, random: &[u8], p: usize, table: &[u8], scratch: &mut [u8]) -> u8
    requires p_in_bounds { p + 2 < length random.now }
    requires table_value { table.now ≡ sbox }
    requires in_bounds { 256 ≤ length scratch.old }
    ensures scratch_after { scratch.new ≡ filled random.now p x0 r1 r2 scratch.old }
    ensures value { result ≡ answered random.now p x0 r1 r2 }
    ensures scratch_unchanged { cleared scratch.new ≡ cleared scratch.old }
{
    let case = make_case(x0, r1, r2, random[p], random[p + 1], random[p + 2]);
    clear(scratch);
    run(case, table, scratch)
}

// The answers for a word in three shares, and the masks s1 of its lookups; from p + 1 on, their s2.
#[tactic(auto, using(crate::proofs::Placed::word_answers_made, crate::proofs::Clearing::four_clear))]
pub fn word_answers(
    u: [u8; 4],
    v: [u8; 4],
    w: [u8; 4],
    random: &[u8],
    p: usize,
    table: &[u8],
    scratch: &mut [u8],
) -> [u8; 4]
    requires p_in_bounds { p + 11 < length random.now }
    requires table_value { table.now ≡ sbox }
    requires in_bounds { 256 ≤ length scratch.old }
    ensures value { result ≡ lookups_word_answers random.now p u v w }
    ensures scratch_unchanged { cleared scratch.new ≡ cleared scratch.old }
{
    [
        answer(u[0], v[0], w[0], random, p, table, scratch),
        answer(u[1], v[1], w[1], random, p + 3, table, scratch),
        answer(u[2], v[2], w[2], random, p + 6, table, scratch),
        answer(u[3], v[3], w[3], random, p + 9, table, scratch),
    ]
}

#[tactic(auto, using(crate::proofs::Placed::word_masks_made))]
pub fn word_masks(random: &[u8], p: usize) -> [u8; 4]
    requires { p + 9 < length random.now }
    ensures { result ≡ lookups_word_masks random.now p }
{
    [random[p], random[p + 3], random[p + 6], random[p + 9]]
}

// The same for a state, column by column.
#[tactic(auto, using(crate::proofs::Placed::state_answers_made, crate::proofs::Clearing::four_clear))]
pub fn state_answers(
    s: [[[u8; 4]; 4]; 3],
    random: &[u8],
    p: usize,
    table: &[u8],
    scratch: &mut [u8],
) -> [[u8; 4]; 4]
    requires p_in_bounds { p + 47 < length random.now }
    requires table_value { table.now ≡ sbox }
    requires in_bounds { 256 ≤ length scratch.old }
    ensures value { result ≡ lookups_state_answers random.now p s }
    ensures scratch_unchanged { cleared scratch.new ≡ cleared scratch.old }
{
    let p1 = p + 12;
    let p2 = p + 24;
    let p3 = p + 36;
    [
        column_answers(s, 0, random, p, table, scratch),
        column_answers(s, 1, random, p1, table, scratch),
        column_answers(s, 2, random, p2, table, scratch),
        column_answers(s, 3, random, p3, table, scratch),
    ]
}

#[tactic(auto, unfolding(crate::specs::Lookups::column_answers, aes::specs::State::column, crate::specs::Shares::share))]
fn column_answers(
    s: [[[u8; 4]; 4]; 3],
    c: usize,
    random: &[u8],
    p: usize,
    table: &[u8],
    scratch: &mut [u8],
) -> [u8; 4]
    requires c_bound { c < 4 }
    requires p_in_bounds { p + 11 < length random.now }
    requires table_value { table.now ≡ sbox }
    requires in_bounds { 256 ≤ length scratch.old }
    ensures value { result ≡ lookups_column_answers random.now p s c }
    ensures scratch_unchanged { cleared scratch.new ≡ cleared scratch.old }
{
    word_answers(s[0][c], s[1][c], s[2][c], random, p, table, scratch)
}

#[tactic(auto, using(crate::proofs::Placed::state_masks_made))]
pub fn state_masks(random: &[u8], p: usize) -> [[u8; 4]; 4]
    requires { p + 45 < length random.now }
    ensures { result ≡ lookups_state_masks random.now p }
{
    [
        word_masks(random, p),
        word_masks(random, p + 12),
        word_masks(random, p + 24),
        word_masks(random, p + 36),
    ]
}

// Where a lookup's random bytes begin; rounds are counted from 0.
#[tactic(auto, unfolding(crate::specs::Lookups::position))]
pub fn position(round: usize, lookup: usize) -> usize
    requires round_bound { round < 10 }
    requires lookup_bound { lookup < 20 }
    ensures value { result ≡ lookups_position round lookup }
    ensures upper_bound { result ≤ 572 + 3 * lookup }
{
    32 + 3 * (20 * round + lookup)
}
