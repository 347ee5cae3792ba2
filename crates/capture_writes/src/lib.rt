// One write of a capture: its three lines, `at=`, `port=` and `value=`. 02, request 01.
#![tactic(auto)]

ghost use Rattle.std.specs.Prelude.{◌≡◌};
ghost use Rattle.capture_writes.specs.Writes.{lines_at};

use bus_writes::BusWrite;
use capture_lines::{port_line, stamp_line, value_line};
use dump_clocks::{LineRefused, at_line};
use text_entries::{byte_entry_at, line_entry_at, long_entry_at};

// A write, and the place after its lines.
#[derive(Clone, Copy)]
pub struct WriteLines {
    pub write: BusWrite,
    pub next: usize,
}

// The write at a place, after one of stamp `before`. A refusal names one of its lines, 0 for `at=` up to 2 for `value=`.
#[tactic(auto, unfolding(crate::specs::Writes::lines_at))]
pub fn write_at(text: &[u8], before: u64, at: usize) -> Result<WriteLines, LineRefused>
    ensures { result ≡ lines_at text.now before at }
{
    let one = long_entry_at(b"at=", text, at);
    let stamp = at_line(stamp_line(before, one.value), 0)?;
    let two = line_entry_at(b"port=", text, one.next);
    let port = at_line(port_line(two.value), 1)?;
    let three = byte_entry_at(b"value=", text, two.next);
    let value = at_line(value_line(three.value), 2)?;
    Ok(WriteLines {
        write: BusWrite { stamp, port, value },
        next: three.next,
    })
}
