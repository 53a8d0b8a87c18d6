// Powers of two for the calls above. The meaning of `^` and its laws stand in specs/ and proofs/.
#![tactic(auto)]

ghost use Rattle.std.specs.Prelude.{◌≡◌, ◌^◌, ◌<◌};

// 2^exponent, by a shift. It is for the other crates, which have checked the exponent first, so it has a `requires`.
pub fn power(exponent: u32) -> u32
    requires { exponent < 32 }
    ensures { result ≡ 2 ^ exponent }
{
    1 << exponent
}
