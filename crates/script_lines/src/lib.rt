// Lines of an input, one after the other, in fixed memory. Nothing here knows what a line says.
#![tactic(auto)]

ghost use Rattle.std.specs.Prelude.{◌≤◌};

use std::io::Read;

const ROOM: usize = 65536;

// What is read and not yet handed out stands in the buffer from `start` up to `end`.
#[derive(Drop)]
pub struct Lines {
    buffer: [u8; ROOM],
    start: usize,
    end: usize,
    ghost within: { (start ≤ end) × (end ≤ 65536) },
}

impl Lines {
    pub fn new() -> Lines {
        Lines {
            buffer: [0; ROOM],
            start: 0,
            end: 0,
        }
    }

    // The next line that stands whole in the buffer, without its LF.
    pub fn next_line(&mut self) -> Option<&[u8]> {
        let unread = &self.buffer[self.start..self.end];
        let length = unread.iter().position(|byte| *byte == b'\n')?;
        let start = self.start;
        self.start = start + length + 1;
        Some(&self.buffer[start..start + length])
    }

    // Reads on where no whole line is left; false at the input's end. A read that fails ends it.
    pub fn read_more<R: Read>(&mut self, source: &mut R) -> bool {
        let kept = self.end - self.start;
        self.buffer.copy_within(self.start..self.end, 0);
        let more = source.read(&mut self.buffer[kept..]).unwrap_or(0);
        self.start = 0;
        self.end = kept + more;
        if more == 0 && kept > 0 {
            // A last line with no LF gets one; one as long as the buffer becomes an empty line.
            let last = kept % ROOM;
            self.buffer[last] = b'\n';
            self.end = last + 1;
        }
        self.end > 0
    }
}
