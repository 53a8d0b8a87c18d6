// The steps of FIPS 197 that act on each share by itself: row shifting, column mixing, key addition, and the words of the next round key;
// and states read from bytes. A share is four columns of four bytes. No branch and no index depends on a byte.
#![tactic(auto)]

ghost use Rattle.std.specs.Prelude.{◌≡◌, ◌+◌, ◌<◌, length};
ghost use Rattle.sbox.specs.Field.{times};
ghost use Rattle.aes.specs.State.{word_from as state_word_from, state_from as state_state_from, add_words};
ghost use Rattle.aes.specs.Steps.{shift_rows as steps_shift_rows, mix_column as steps_mix_column, mix_columns as steps_mix_columns, add_round_key as steps_add_round_key};
ghost use Rattle.aes.specs.Expansion.{rot_word as expansion_rot_word, rcon as expansion_rcon, next_words as expansion_next_words};

pub fn shift_rows(s: [[u8; 4]; 4]) -> [[u8; 4]; 4]
    ensures { result ≡ steps_shift_rows s }
{
    [
        [s[0][0], s[1][1], s[2][2], s[3][3]],
        [s[1][0], s[2][1], s[3][2], s[0][3]],
        [s[2][0], s[3][1], s[0][2], s[1][3]],
        [s[3][0], s[0][1], s[1][2], s[2][3]],
    ]
}

#[tactic(auto, using(crate::proofs::Made::four_made), unfolding(crate::specs::Steps::mix_columns, crate::specs::State::column))]
pub fn mix_columns(s: [[u8; 4]; 4]) -> [[u8; 4]; 4]
    ensures { result ≡ steps_mix_columns s }
{
    [
        mix_column(s[0]),
        mix_column(s[1]),
        mix_column(s[2]),
        mix_column(s[3]),
    ]
}

#[tactic(auto, using(crate::proofs::Made::column_made))]
fn mix_column(w: [u8; 4]) -> [u8; 4]
    ensures { result ≡ steps_mix_column w }
{
    [
        double(w[0]) ^ triple(w[1]) ^ w[2] ^ w[3],
        double(w[1]) ^ triple(w[2]) ^ w[3] ^ w[0],
        double(w[2]) ^ triple(w[3]) ^ w[0] ^ w[1],
        double(w[3]) ^ triple(w[0]) ^ w[1] ^ w[2],
    ]
}

// The product with x: where x^8 comes up, the field's polynomial is added, by a product and not by a branch.
fn double(b: u8) -> u8
    ensures { result ≡ times 2 b }
{
    let wide = b as u32 * 2;
    (wide ^ wide / 256 * 0x11b) as u8
}

fn triple(b: u8) -> u8
    ensures { result ≡ times 3 b }
{
    double(b) ^ b
}

pub fn add_words(u: [u8; 4], v: [u8; 4]) -> [u8; 4]
    ensures { result ≡ add_words u v }
{
    [u[0] ^ v[0], u[1] ^ v[1], u[2] ^ v[2], u[3] ^ v[3]]
}

#[tactic(auto, using(crate::proofs::Made::four_made), unfolding(crate::specs::Steps::add_round_key, crate::specs::State::column))]
pub fn add_round_key(s: [[u8; 4]; 4], k: [[u8; 4]; 4]) -> [[u8; 4]; 4]
    ensures { result ≡ steps_add_round_key s k }
{
    [
        add_words(s[0], k[0]),
        add_words(s[1], k[1]),
        add_words(s[2], k[2]),
        add_words(s[3], k[3]),
    ]
}

#[tactic(auto, unfolding(crate::specs::Expansion::rot_word, crate::specs::State::four, table::specs::Balanced::at))]
pub fn rot_word(w: [u8; 4]) -> [u8; 4]
    ensures { result ≡ expansion_rot_word w }
{
    [w[1], w[2], w[3], w[0]]
}

// x^0 to x^9, in the field.
const CONSTANTS: [u8; 10] = [0x01, 0x02, 0x04, 0x08, 0x10, 0x20, 0x40, 0x80, 0x1b, 0x36];

// The round constant's word; rounds are counted from 0. There are ten, so it has a `requires`.
pub fn rcon(i: usize) -> [u8; 4]
    requires { i < 10 }
    ensures { result ≡ expansion_rcon i }
{
    [CONSTANTS[i], 0, 0, 0]
}

// The next round key's words; `changed` is the last word, substituted, as it goes into the first.
#[tactic(auto, using(crate::proofs::Made::words_made))]
pub fn next_words(k: [[u8; 4]; 4], changed: [u8; 4]) -> [[u8; 4]; 4]
    ensures { result ≡ expansion_next_words k changed }
{
    let w0 = add_words(k[0], changed);
    let w1 = add_words(k[1], w0);
    let w2 = add_words(k[2], w1);
    let w3 = add_words(k[3], w2);
    [w0, w1, w2, w3]
}

// Four bytes from a position on, and sixteen as a state. The caller has measured the bytes, so these have a `requires`.
#[tactic(auto, using(crate::proofs::Made::state_from_made))]
pub fn state_from(bytes: &[u8], p: usize) -> [[u8; 4]; 4]
    requires { p + 15 < length bytes.now }
    ensures { result ≡ state_state_from bytes.now p }
{
    [
        word_from(bytes, p),
        word_from(bytes, p + 4),
        word_from(bytes, p + 8),
        word_from(bytes, p + 12),
    ]
}

#[tactic(auto, using(crate::proofs::Made::word_from_made))]
fn word_from(bytes: &[u8], p: usize) -> [u8; 4]
    requires { p + 3 < length bytes.now }
    ensures { result ≡ state_word_from bytes.now p }
{
    [bytes[p], bytes[p + 1], bytes[p + 2], bytes[p + 3]]
}
