// One block encrypted by FIPS 197 under a key of 128 bits, with key and state in three shares.
#![tactic(auto)]

ghost use Rattle.std.specs.Prelude.{◌≡◌, ◌≤◌, length};
ghost use Rattle.frame_lookups.specs.Scratch.{cleared};
ghost use Rattle.frame_rounds.specs.Rounds.{frame_shares};
ghost use Rattle.refusals.specs.Numbers.{refusal_of};
ghost use Rattle.frame.specs.Encrypted.{handed_frame};
ghost use Rattle.frame.specs.Frame.{frame_refusal, flat as frame_flat, frame_reply, frame_scratch};

use refusals::Refusal;

// What an accepted frame hands back: the bytes of the ciphertext's three shares, column by column.
#[derive(Clone, Copy)]
pub struct Ciphertext {
    pub share1: [u8; 16],
    pub share2: [u8; 16],
    pub share3: [u8; 16],
}

// The plaintext comes unshared, the key in three shares. `random` has 632 bytes, new for each frame, which are screened; the first 256 bytes
// of the scratch are used, and are 0 after it.
pub fn encrypt_frame(
    plaintext: [[u8; 4]; 4],
    key1: [[u8; 4]; 4],
    key2: [[u8; 4]; 4],
    key3: [[u8; 4]; 4],
    random: &[u8],
    scratch: &mut [u8],
) -> Result<Ciphertext, Refusal>
    ensures value { handed_frame result ≡ frame_reply plaintext key1 key2 key3 random.now scratch.old }
    ensures scratch_after { scratch.new ≡ frame_scratch random.now scratch.old }
{
    refused(random, scratch)?;
    let s = encrypt(plaintext, [key1, key2, key3], random, scratch);
    Ok(Ciphertext {
        share1: flat(s[0]),
        share2: flat(s[1]),
        share3: flat(s[2]),
    })
}

fn refused(random: &[u8], scratch: &[u8]) -> Result<(), Refusal>
    ensures { refusal_of result ≡ frame_refusal random.now scratch.now }
{
    if random.len() != 632 {
        return Err(Refusal::RandomLength);
    }
    if screening::screen(random).is_some() {
        return Err(Refusal::FaultyRandom);
    }
    if scratch.len() < 256 {
        return Err(Refusal::ShortScratch);
    }
    Ok(())
}

// A frame that is not refused.
fn encrypt(
    plaintext: [[u8; 4]; 4],
    key: [[[u8; 4]; 4]; 3],
    random: &[u8],
    scratch: &mut [u8],
) -> [[[u8; 4]; 4]; 3]
    requires random_len { length random.now ≡ 632 }
    requires in_bounds { 256 ≤ length scratch.old }
    ensures value { result ≡ frame_shares random.now plaintext key }
    ensures scratch_after { scratch.new ≡ cleared scratch.old }
{
    let table = sbox::table();
    let r1 = aes::state_from(random, 0);
    let r2 = aes::state_from(random, 16);
    let masked = aes::add_round_key(aes::add_round_key(plaintext, r1), r2);
    let s = frame_rounds::add_keys([masked, r1, r2], key);
    let done = frame_rounds::ten(s, key, random, &table, scratch);
    frame_lookups::clear(scratch);
    done
}

// A state's bytes, column by column. A struct's field can't be an array of arrays.
fn flat(s: [[u8; 4]; 4]) -> [u8; 16]
    ensures { result ≡ frame_flat s }
{
    [
        s[0][0], s[0][1], s[0][2], s[0][3], s[1][0], s[1][1], s[1][2], s[1][3], s[2][0], s[2][1],
        s[2][2], s[2][3], s[3][0], s[3][1], s[3][2], s[3][3],
    ]
}
