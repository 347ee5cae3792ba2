// The words of a script's line as numbers. Nothing here knows a call or a chip.
#![tactic(auto)]

use std::str::FromStr;

// A decimal number of the type, with no needless sign or leading zero.
pub fn decimal<T: FromStr>(word: &str) -> Option<T>
where
    T::Err: Drop,
{
    let digits = word.strip_prefix('-').unwrap_or(word);
    if digits.starts_with('+') || digits.starts_with('0') && word != "0" {
        return None;
    }
    word.parse().ok()
}

// Exactly so many hex digits, of lower case.
pub fn hex(word: &str, digits: usize) -> Option<u128> {
    if word.len() != digits || !word.bytes().all(is_hex_digit) {
        return None;
    }
    u128::from_str_radix(word, 16).ok()
}

fn is_hex_digit(byte: u8) -> bool {
    matches!(byte, b'0'..=b'9' | b'a'..=b'f')
}

// The f32 of these bits. The patterns of a NaN stand for one value.
pub fn float(bits: u32) -> f32 {
    if bits % 0x8000_0000 > 0x7f80_0000 {
        0.0 / 0.0
    } else {
        f32::from_bits(bits)
    }
}
