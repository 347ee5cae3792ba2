// One line of a capture: its form before its range, and a stamp's order after both. 02, request 01.
#![tactic(auto)]

ghost use Rattle.std.specs.Prelude.{◌≡◌};
ghost use Rattle.capture_lines.specs.OneLine.{port_line, stamp_line, value_line, words_line, writes_line};

use refusals::Refusal;
use text_stamps::Misread;

pub const MOST_WRITES: u64 = 1_500;

pub const MOST_WORDS: u64 = 65_536;

pub const HIGHEST_PORT: u64 = 3;

#[tactic(auto, unfolding(crate::specs::OneLine::writes_line))]
pub fn writes_line(value: Option<u64>) -> Result<u16, Refusal>
    ensures { result ≡ writes_line value }
{
    let writes = value.ok_or(Refusal::LineNotOfForm)?;
    if writes > MOST_WRITES {
        return Err(Refusal::SizeOutOfRange);
    }
    Ok(writes as u16)
}

#[tactic(auto, unfolding(crate::specs::OneLine::words_line))]
pub fn words_line(value: Option<u64>) -> Result<u32, Refusal>
    ensures { result ≡ words_line value }
{
    let words = value.ok_or(Refusal::LineNotOfForm)?;
    if words == 0 || words > MOST_WORDS {
        return Err(Refusal::SizeOutOfRange);
    }
    Ok(words as u32)
}

// `before` is the stamp of the write before; the first has none, and 0 stands for it.
#[tactic(auto, unfolding(crate::specs::OneLine::stamp_line))]
pub fn stamp_line(before: u64, value: Result<u64, Misread>) -> Result<u64, Refusal>
    ensures { result ≡ stamp_line before value }
{
    match value {
        Err(Misread::NotOfForm) => Err(Refusal::LineNotOfForm),
        Err(Misread::TooHigh) => Err(Refusal::SizeOutOfRange),
        Ok(stamp) if stamp < before => Err(Refusal::StampLower),
        Ok(stamp) => Ok(stamp),
    }
}

#[tactic(auto, unfolding(crate::specs::OneLine::port_line))]
pub fn port_line(value: Option<u64>) -> Result<u8, Refusal>
    ensures { result ≡ port_line value }
{
    let port = value.ok_or(Refusal::LineNotOfForm)?;
    if port > HIGHEST_PORT {
        return Err(Refusal::SizeOutOfRange);
    }
    Ok(port as u8)
}

#[tactic(auto, unfolding(crate::specs::OneLine::value_line))]
pub fn value_line(value: Option<u8>) -> Result<u8, Refusal>
    ensures { result ≡ value_line value }
{
    value.ok_or(Refusal::LineNotOfForm)
}
