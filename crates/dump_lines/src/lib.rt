// One line of a dump: its form before its range. 01, "The dump player".
#![tactic(auto)]

ghost use Rattle.std.specs.Prelude.{◌≡◌};
ghost use Rattle.dump_lines.specs.OneLine.{frame_at, frames_line, is_frame, master_line, rate_line, words_line};

use refusals::Refusal;

pub const MOST_WORDS: u64 = 4_096;

pub const MOST_FRAMES: u64 = 1_900;

#[tactic(auto, unfolding(crate::specs::OneLine::master_line))]
pub fn master_line(value: Option<u64>) -> Result<u32, Refusal>
    ensures { result ≡ master_line value }
{
    let master = value.ok_or(Refusal::LineNotOfForm)?;
    clocks::accept_master(master)?;
    Ok(master as u32)
}

#[tactic(auto, unfolding(crate::specs::OneLine::rate_line))]
pub fn rate_line(master: u64, value: Option<u64>) -> Result<u64, Refusal>
    ensures { result ≡ rate_line master value }
{
    let rate = value.ok_or(Refusal::LineNotOfForm)?;
    clocks::accept_rate(master, rate)?;
    Ok(rate)
}

#[tactic(auto, unfolding(crate::specs::OneLine::words_line))]
pub fn words_line(value: Option<u64>) -> Result<u16, Refusal>
    ensures { result ≡ words_line value }
{
    let words = value.ok_or(Refusal::LineNotOfForm)?;
    if words == 0 || words > MOST_WORDS {
        return Err(Refusal::SizeOutOfRange);
    }
    Ok(words as u16)
}

#[tactic(auto, unfolding(crate::specs::OneLine::frames_line))]
pub fn frames_line(value: Option<u64>) -> Result<u16, Refusal>
    ensures { result ≡ frames_line value }
{
    let frames = value.ok_or(Refusal::LineNotOfForm)?;
    if frames > MOST_FRAMES {
        return Err(Refusal::SizeOutOfRange);
    }
    Ok(frames as u16)
}

#[tactic(auto, unfolding(crate::specs::OneLine::frame_at))]
pub fn frame_at(text: &[u8], at: usize) -> bool
    ensures { result ≡ frame_at text.now at }
{
    is_frame(text_lines::value_at(b"regs=", text, at))
}

// The value of a frame's line: 28 lower-case hex digits.
#[tactic(auto, unfolding(crate::specs::OneLine::is_frame))]
pub fn is_frame(value: &[u8]) -> bool
    ensures { result ≡ is_frame value.now }
{
    value.len() == 28 && text_fields::all_hex(value)
}
