// The rounds of a frame, in three shares. The frame has measured its buffers, so these have a `requires`.
#![tactic(auto)]

ghost use Rattle.std.specs.Prelude.{◌≡◌, ◌≤◌, ◌<◌, length};
ghost use Rattle.sbox.specs.Sbox.{sbox};
ghost use Rattle.frame_lookups.specs.Scratch.{cleared};
ghost use Rattle.frame_rounds.specs.Rounds.{next_key_shares, substituted, mixing_round, ten_rounds};
ghost use Rattle.aes.specs.Steps.{add_round_key as steps_add_round_key};
ghost use Rattle.frame_lookups.specs.Shares.{with_each_share};

// The next round key. The round constant goes to the first share.
#[tactic(auto, using(crate::proofs::Shared::next_key_made))]
fn next_key(
    key: [[[u8; 4]; 4]; 3],
    i: usize,
    random: &[u8],
    table: &[u8],
    scratch: &mut [u8],
) -> [[[u8; 4]; 4]; 3]
    requires i_bound { i < 10 }
    requires random_len { length random.now ≡ 632 }
    requires table_value { table.now ≡ sbox }
    requires in_bounds { 256 ≤ length scratch.old }
    ensures value { result ≡ next_key_shares random.now i key }
    ensures scratch_unchanged { cleared scratch.new ≡ cleared scratch.old }
{
    let p = frame_lookups::position(i, 0);
    let s1 = frame_lookups::word_masks(random, p);
    let s2 = frame_lookups::word_masks(random, p + 1);
    let u = aes::rot_word(key[0][3]);
    let v = aes::rot_word(key[1][3]);
    let w = aes::rot_word(key[2][3]);
    let answers = frame_lookups::word_answers(u, v, w, random, p, table, scratch);
    let changed = aes::add_words(answers, aes::rcon(i));
    [
        aes::next_words(key[0], changed),
        aes::next_words(key[1], s1),
        aes::next_words(key[2], s2),
    ]
}

// The state's bytes looked up, and its rows shifted.
#[tactic(auto, using(crate::proofs::Shared::substituted_made))]
fn substitute(
    s: [[[u8; 4]; 4]; 3],
    i: usize,
    random: &[u8],
    table: &[u8],
    scratch: &mut [u8],
) -> [[[u8; 4]; 4]; 3]
    requires i_bound { i < 10 }
    requires random_len { length random.now ≡ 632 }
    requires table_value { table.now ≡ sbox }
    requires in_bounds { 256 ≤ length scratch.old }
    ensures value { result ≡ substituted random.now i s }
    ensures scratch_unchanged { cleared scratch.new ≡ cleared scratch.old }
{
    let p = frame_lookups::position(i, 4);
    let answers = frame_lookups::state_answers(s, random, p, table, scratch);
    [
        aes::shift_rows(answers),
        aes::shift_rows(frame_lookups::state_masks(random, p)),
        aes::shift_rows(frame_lookups::state_masks(random, p + 1)),
    ]
}

#[tactic(auto, using(crate::proofs::Shared::mixing_made))]
fn mix(
    s: [[[u8; 4]; 4]; 3],
    i: usize,
    key: [[[u8; 4]; 4]; 3],
    random: &[u8],
    table: &[u8],
    scratch: &mut [u8],
) -> [[[u8; 4]; 4]; 3]
    requires i_bound { i < 10 }
    requires random_len { length random.now ≡ 632 }
    requires table_value { table.now ≡ sbox }
    requires in_bounds { 256 ≤ length scratch.old }
    ensures value { result ≡ mixing_round random.now i s key }
    ensures scratch_unchanged { cleared scratch.new ≡ cleared scratch.old }
{
    let t = substitute(s, i, random, table, scratch);
    let m = [
        aes::mix_columns(t[0]),
        aes::mix_columns(t[1]),
        aes::mix_columns(t[2]),
    ];
    add_keys(m, key)
}

// The key added to each share.
pub fn add_keys(s: [[[u8; 4]; 4]; 3], key: [[[u8; 4]; 4]; 3]) -> [[[u8; 4]; 4]; 3]
    ensures { result ≡ with_each_share steps_add_round_key s key }
{
    [
        aes::add_round_key(s[0], key[0]),
        aes::add_round_key(s[1], key[1]),
        aes::add_round_key(s[2], key[2]),
    ]
}

// From a state that has the key added.
pub fn ten(
    state: [[[u8; 4]; 4]; 3],
    first: [[[u8; 4]; 4]; 3],
    random: &[u8],
    table: &[u8],
    scratch: &mut [u8],
) -> [[[u8; 4]; 4]; 3]
    requires random_len { length random.now ≡ 632 }
    requires table_value { table.now ≡ sbox }
    requires in_bounds { 256 ≤ length scratch.old }
    ensures value { result ≡ ten_rounds random.now state first }
    ensures scratch_unchanged { cleared scratch.new ≡ cleared scratch.old }
{
    let mut s = state;
    let mut key = first;
    for i in 0..9 {
        let next = next_key(key, i, random, table, scratch);
        key = next;
        let mixed = mix(s, i, key, random, table, scratch);
        s = mixed;
    }
    let last = next_key(key, 9, random, table, scratch);
    add_keys(substitute(s, 9, random, table, scratch), last)
}
