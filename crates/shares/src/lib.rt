// Three shares of a secret: splitting, joining and adding a key share by share. Bad input is refused.
#![tactic(auto)]

ghost use Rattle.std.specs.Prelude.{◌≡◌};
ghost use Rattle.refusals.specs.Numbers.{refusal_of};
ghost use Rattle.shares.specs.Shares.{width_refusal as shares_width_refusal, handed_shares, handed_secret, split as shares_split, join as shares_join, add_key as shares_add_key};

use refusals::Refusal;

#[derive(Clone, Copy)]
pub struct Shares {
    pub first: u32,
    pub second: u32,
    pub third: u32,
}

// The shares x0, r1, r2 of a secret.
pub fn split(width: u32, secret: u32, mask1: u32, mask2: u32) -> Result<Shares, Refusal>
    ensures { handed_shares result ≡ shares_split width secret mask1 mask2 }
{
    width_refusal(width, &[secret, mask1, mask2])?;
    Ok(Shares {
        first: (secret ^ mask1) ^ mask2,
        second: mask1,
        third: mask2,
    })
}

// The secret of three shares.
pub fn join(width: u32, share1: u32, share2: u32, share3: u32) -> Result<u32, Refusal>
    ensures { handed_secret result ≡ shares_join width share1 share2 share3 }
{
    width_refusal(width, &[share1, share2, share3])?;
    Ok((share1 ^ share2) ^ share3)
}

// Three shares with the key's three shares added to them.
pub fn add_key(
    width: u32,
    share1: u32,
    share2: u32,
    share3: u32,
    key1: u32,
    key2: u32,
    key3: u32,
) -> Result<Shares, Refusal>
    ensures { handed_shares result ≡ shares_add_key width share1 share2 share3 key1 key2 key3 }
{
    width_refusal(width, &[share1, share2, share3, key1, key2, key3])?;
    Ok(Shares {
        first: share1 ^ key1,
        second: share2 ^ key2,
        third: share3 ^ key3,
    })
}

fn width_refusal(width: u32, numbers: &[u32]) -> Result<(), Refusal>
    ensures { refusal_of result ≡ shares_width_refusal width numbers.now }
{
    if refusals::outside(1, 8, width) {
        return Err(Refusal::InputWidth);
    }
    if refusals::any_number_from(bits::power(width), numbers) {
        return Err(Refusal::Input);
    }
    Ok(())
}
