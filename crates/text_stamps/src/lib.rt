// Decimals of up to 20 digits, as a stamp has them, held to 2^64 - 1. 02, request 01.
#![tactic(auto)]

ghost use Rattle.std.specs.Prelude.{◌≡◌};
ghost use Rattle.text_stamps.specs.Stamps.{long_decimal_of};

use text_fields::decimal_up_to;

// Why a text gives no stamp.
#[derive(Clone, Copy, Debug, PartialEq, Eq)]
pub enum Misread {
    NotOfForm,
    // a decimal of good form above 2^64 - 1
    TooHigh,
}

// 1 to 20 digits with no needless leading zero.
#[tactic(auto, unfolding(crate::specs::Stamps::long_decimal_of))]
pub fn long_decimal(s: &[u8]) -> Result<u64, Misread>
    ensures { result ≡ long_decimal_of s.now }
{
    let n = decimal_up_to(20, s).ok_or(Misread::NotOfForm)?;
    u64::try_from(n).map_err(|_| Misread::TooHigh)
}
