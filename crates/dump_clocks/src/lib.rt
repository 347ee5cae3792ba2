// The first two lines of a text that the bench plays: its clocks, read where a reader meets them. 01, "The dump player".
#![tactic(auto)]

ghost use Rattle.std.specs.Prelude.{◌≡◌};
ghost use Rattle.dump_clocks.specs.Clocks.{at_line, clock_lines};

use dump_lines::{master_line, rate_line};
use dump_reader::first_lines;
use refusals::Refusal;
use text_entries::line_entry_at;

pub const LONGEST_TEXT: usize = 65_536;

// Why a text is refused, and at which line, counted from 1; 0 is the whole text.
#[derive(Clone, Copy, Debug, PartialEq, Eq)]
pub struct LineRefused {
    pub why: Refusal,
    pub line: u32,
}

// The clocks, and the places of the next two lines.
#[derive(Clone, Copy)]
pub struct ClockLines {
    pub master: u32,
    pub rate: u32,
    pub third: usize,
    pub fourth: usize,
}

pub fn at_line<T>(tested: Result<T, Refusal>, line: u32) -> Result<T, LineRefused>
    ensures { result ≡ at_line tested line }
{
    match tested {
        Ok(read) => Ok(read),
        Err(why) => Err(LineRefused { why, line }),
    }
}

#[tactic(auto, unfolding(crate::specs::Clocks::clock_lines))]
pub fn clock_lines(text: &[u8]) -> Result<ClockLines, LineRefused>
    ensures { result ≡ clock_lines text.now }
{
    if text.len() > LONGEST_TEXT {
        return Err(LineRefused {
            why: Refusal::DumpTooLong,
            line: 0,
        });
    }
    let lines = first_lines(text);
    let one = line_entry_at(b"master=", text, lines.one.start);
    let master = at_line(master_line(one.value), 1)?;
    let two = line_entry_at(b"rate=", text, lines.two.start);
    let rate = at_line(rate_line(u64::from(master), two.value), 2)?;
    Ok(ClockLines {
        master,
        rate: rate as u32,
        third: lines.three.start,
        fourth: lines.four.start,
    })
}
