// The whole dump, checked line by line. 01, "The dump player".
#![tactic(auto)]

ghost use Rattle.std.specs.Prelude.{◌≡◌};
ghost use Rattle.dump.specs.Checked.{checked, frames_from, told};

use dump_clocks::{LineRefused, at_line, clock_lines};
use dump_lines::{frames_line, words_line};
use refusals::Refusal;
use text_entries::line_entry_at;

// What the header of an accepted dump says; `body` is the place of the first frame's line.
#[derive(Clone, Copy, Debug, PartialEq, Eq)]
pub struct Dump {
    pub master: u32,
    pub rate: u32,
    pub words: u16,
    pub frames: u16,
    pub body: usize,
}

// The same as numbers, which a player holds. `no` 0 is accepted, and `line` is 0; any other is 01's refusal, at `line`, and of a check the rest
// is 0.
#[derive(Clone, Copy)]
pub struct Verdict {
    pub no: u8,
    pub line: u32,
    pub master: u32,
    pub rate: u32,
    pub words: u16,
    pub frames: u16,
    pub body: usize,
}

impl From<Result<Dump, LineRefused>> for Verdict {
    ghost from_gives = { λ checked r. r ≡ told checked };

    #[tactic(auto, unfolding(crate::specs::Checked::told))]
    fn from(checked: Result<Dump, LineRefused>) -> Verdict {
        match checked {
            Ok(dump) => Verdict {
                no: refusals::ACCEPTED,
                line: 0,
                master: dump.master,
                rate: dump.rate,
                words: dump.words,
                frames: dump.frames,
                body: dump.body,
            },
            Err(refused) => Verdict {
                no: refused.why.number(),
                line: refused.line,
                master: 0,
                rate: 0,
                words: 0,
                frames: 0,
                body: 0,
            },
        }
    }
}

#[tactic(auto, unfolding(crate::specs::Checked::checked, crate::specs::Checked::sized))]
pub fn check(text: &[u8]) -> Result<Dump, LineRefused>
    ensures { result ≡ checked text.now }
{
    let clocks = clock_lines(text)?;
    let third = line_entry_at(b"words=", text, clocks.third);
    let words = at_line(words_line(third.value), 3)?;
    let fourth = line_entry_at(b"frames=", text, clocks.fourth);
    let frames = at_line(frames_line(fourth.value), 4)?;
    all_frames(text, frames, fourth.next)?;
    Ok(Dump {
        master: clocks.master,
        rate: clocks.rate,
        words,
        frames,
        body: fourth.next,
    })
}

// The frames' lines, of which line 5 is the first; nothing stands after the last.
fn all_frames(text: &[u8], frames: u16, body: usize) -> Result<(), LineRefused>
    ensures { result ≡ frames_from text.now frames 5 body }
{
    let read = dump_body::frames_read(text, body, frames);
    if read.count < frames {
        return at_line(Err(Refusal::LineNotOfForm), 5 + u32::from(read.count));
    }
    if read.at < text.len() {
        return at_line(Err(Refusal::BytesAfterTheEnd), 5 + u32::from(frames));
    }
    Ok(())
}
