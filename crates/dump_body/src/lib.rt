// The frames' lines of a dump, read one after another by a reader. 01, "The dump player".
#![tactic(auto)]

ghost use Rattle.std.specs.Prelude.{◌≡◌};
ghost use Rattle.dump_body.specs.Frames.{frames_read};

use dump_lines::frame_at;
use dump_reader::{DumpReader, next_line};

// How many lines have a frame's form, and where the reader stands after the last line that it read.
#[derive(Clone, Copy)]
pub struct FramesRead {
    pub count: u16,
    pub at: usize,
}

// The reader starts at `body`, and stops after `frames` lines or after the first that is not of its form.
pub fn frames_read(text: &[u8], body: usize, frames: u16) -> FramesRead
    ensures { result ≡ frames_read text.now frames body }
{
    let mut r = DumpReader { text, at: body };
    for count in 0..frames {
        let line = next_line(&mut r);
        if !frame_at(text, line.start) {
            return FramesRead { count, at: r.at };
        }
    }
    FramesRead {
        count: frames,
        at: r.at,
    }
}
