// Decimals and hex digits in a text. Of dumps and captures they have the limits, 10 digits and lower-case hex, and nothing else.
#![tactic(auto)]

ghost use Rattle.std.specs.Prelude.{◌≡◌, true, ◌+◌, ◌*◌, ◌<◌, ◌≤◌, length};
ghost use Rattle.text_fields.specs.Fields.{all_hex, decimal_of, decimal_up_to, hex_byte, hex_digit, needless};

// 1 to 10 digits with no needless leading zero.
#[tactic(auto, unfolding(crate::specs::Fields::decimal_of))]
pub fn decimal(s: &[u8]) -> Option<u64>
    ensures { result ≡ decimal_of s.now }
{
    let n = decimal_up_to(10, s)?;
    Some(n as u64)
}

// The same of up to `most` digits; 38 are the most that fit any u128.
#[tactic(auto, using(crate::proofs::Digits::readings))]
pub fn decimal_up_to(most: usize, s: &[u8]) -> Option<u128>
    requires { most ≤ 38 }
    ensures { result ≡ decimal_up_to most s.now }
{
    if s.is_empty() || s.len() > most || leading_zero(s) {
        return None;
    }
    let mut n = 0;
    for d in s {
        match d {
            b'0'..=b'9' => n = 10 * n + (*d - b'0') as u128,
            _ => return None,
        }
    }
    Some(n)
}

pub fn all_hex(s: &[u8]) -> bool
    ensures { result ≡ all_hex s.now }
{
    s.iter().all(|b| hex_value(*b).is_some())
}

// Byte i of a run of hex digits.
pub fn hex_byte(s: &[u8], i: usize) -> u8
    requires s_value { all_hex s.now ≡ true }
    requires i_in_bounds { 2 * i + 1 < length s.now }
    ensures { result ≡ hex_byte s.now i }
{
    let high = hex_value(s[2 * i]).unwrap();
    let low = hex_value(s[2 * i + 1]).unwrap();
    16 * high + low
}

// A 0 with digits after it.
#[tactic(auto, using(std::proofs::lemmas::Bool::Decides::nat_tests), unfolding(crate::specs::Fields::needless))]
pub fn leading_zero(s: &[u8]) -> bool
    ensures { result ≡ needless s.now }
{
    s.len() > 1 && s[0] == b'0'
}

#[tactic(auto, using(std::proofs::lemmas::Bool::Decides::nat_tests), unfolding(crate::specs::Fields::hex_value))]
fn hex_value(b: u8) -> Option<u8>
    ensures { result ≡ hex_digit b }
{
    match b {
        b'0'..=b'9' => Some(b - b'0'),
        b'a'..=b'f' => Some(b - b'a' + 10),
        _ => None,
    }
}
