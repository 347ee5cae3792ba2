// The whole capture, checked line by line. 02, request 01.
#![tactic(auto)]

ghost use Rattle.std.specs.Prelude.{◌≡◌};
ghost use Rattle.capture.specs.Checked.{checked, told_capture};

use capture_body::writes_read;
use capture_lines::{words_line, writes_line};
use dump_clocks::{LineRefused, at_line, clock_lines};
use text_entries::line_entry_at;

// What an accepted capture's four header lines say, and the place of the first write's lines.
#[derive(Clone, Copy)]
pub struct Capture {
    pub master: u32,
    pub rate: u32,
    pub writes: u16,
    pub words: u32,
    pub body: usize,
}

// The same in one record of numbers. `no` 0 is accepted: `line` is 0, and `body` is the place of the first write's lines.
// Any other number is the refusal, at `line`, and the rest is 0.
#[derive(Clone, Copy)]
pub struct Captured {
    pub no: u8,
    pub line: u32,
    pub master: u32,
    pub rate: u32,
    pub writes: u16,
    pub words: u32,
    pub body: usize,
}

#[tactic(auto, unfolding(crate::specs::Checked::checked))]
pub fn check(text: &[u8]) -> Result<Capture, LineRefused>
    ensures { result ≡ checked text.now }
{
    let clocks = clock_lines(text)?;
    let three = line_entry_at(b"writes=", text, clocks.third);
    let writes = at_line(writes_line(three.value), 3)?;
    let four = line_entry_at(b"words=", text, clocks.fourth);
    let words = at_line(words_line(four.value), 4)?;
    writes_read(text, writes, four.next)?;
    Ok(Capture {
        master: clocks.master,
        rate: clocks.rate,
        writes,
        words,
        body: four.next,
    })
}

impl From<Result<Capture, LineRefused>> for Captured {
    ghost from_gives = { λ checked r. r ≡ told_capture checked };

    fn from(checked: Result<Capture, LineRefused>) -> Captured {
        match checked {
            Ok(capture) => Captured {
                no: refusals::ACCEPTED,
                line: 0,
                master: capture.master,
                rate: capture.rate,
                writes: capture.writes,
                words: capture.words,
                body: capture.body,
            },
            Err(refused) => Captured {
                no: refused.why.number(),
                line: refused.line,
                master: 0,
                rate: 0,
                writes: 0,
                words: 0,
                body: 0,
            },
        }
    }
}
