// A line of a text that has one value: the value, and the place of the next line. Nothing here knows what the text is for.
#![tactic(auto)]

ghost use Rattle.std.specs.Prelude.{◌≡◌};
ghost use Rattle.text_entries.specs.Entries.{byte_entry_at, byte_of, is_byte, line_entry_at, long_entry_at};

use text_lines::{line_at, value_at};
use text_stamps::Misread;

// What a line's value reads as, and where the next line starts.
#[derive(Clone, Copy)]
pub struct Entry<V> {
    pub value: V,
    pub next: usize,
}

// None where the line is missing or not of its form.
#[tactic(auto, unfolding(crate::specs::Entries::line_entry_at))]
pub fn line_entry_at(key: &[u8], text: &[u8], at: usize) -> Entry<Option<u64>>
    ensures { result ≡ line_entry_at key.now text.now at }
{
    Entry {
        value: text_fields::decimal(value_at(key, text, at)),
        next: line_at(text, at).next,
    }
}

// The same of a decimal of up to 20 digits.
#[tactic(auto, unfolding(crate::specs::Entries::long_entry_at))]
pub fn long_entry_at(key: &[u8], text: &[u8], at: usize) -> Entry<Result<u64, Misread>>
    ensures { result ≡ long_entry_at key.now text.now at }
{
    Entry {
        value: text_stamps::long_decimal(value_at(key, text, at)),
        next: line_at(text, at).next,
    }
}

// The same of two lower-case hex digits.
#[tactic(auto, unfolding(crate::specs::Entries::byte_entry_at))]
pub fn byte_entry_at(key: &[u8], text: &[u8], at: usize) -> Entry<Option<u8>>
    ensures { result ≡ byte_entry_at key.now text.now at }
{
    Entry {
        value: byte(value_at(key, text, at)),
        next: line_at(text, at).next,
    }
}

fn byte(digits: &[u8]) -> Option<u8>
    ensures { result ≡ byte_of digits.now }
{
    if is_byte(digits) {
        Some(text_fields::hex_byte(digits, 0))
    } else {
        None
    }
}

#[tactic(auto, using(std::proofs::lemmas::Bool::Decides::nat_tests), unfolding(crate::specs::Entries::is_byte))]
fn is_byte(digits: &[u8]) -> bool
    ensures { result ≡ is_byte digits.now }
{
    digits.len() == 2 && text_fields::all_hex(digits)
}
