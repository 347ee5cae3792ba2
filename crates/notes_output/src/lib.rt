// What is printed of a list of pitches, put into a lent buffer. 02, request 12.
#![tactic(auto)]

ghost use Rattle.std.specs.Prelude.{◌≡◌, ◌+◌, ◌*◌, ◌≤◌, length, replicate};
ghost use Rattle.text_put.specs.Text.{overlaid};
ghost use Rattle.notes_output.specs.Printed.{lines_from, most, period_text, printed_in};

use notes_text::Asked;

// The longest output: a line `pitch=` of 8 bytes or more is answered by one of 12 at most, and a list has 65,536 bytes at most.
pub const MOST: usize = 98_304;

// The room that any list's output fits into.
pub fn room() -> [u8; 98304]
    ensures zeros { result ≡ replicate most 0 }
    ensures long { most ≡ length result }
{
    [0; 98304]
}

// The whole output at the buffer's start, and its length. A buffer shorter than MOST gets nothing.
pub fn answer(text: &[u8], out: &mut [u8]) -> usize
    ensures count { result ≡ length (printed_in (length out.old) text.now) }
    ensures buffer { out.new ≡ overlaid out.old 0 (printed_in (length out.old) text.now) }
{
    if out.len() < MOST {
        return 0;
    }
    match notes_text::check(text) {
        Ok(asked) => put_periods(text, asked, out),
        Err(refused) => output_lines::put_refusal(out, refused.why.number(), refused.line),
    }
}

// A line to a note, one after the other; a period has 4 digits at most.
fn put_periods(text: &[u8], asked: Asked, out: &mut [u8]) -> usize
    requires { 12 * asked.notes ≤ length out.old }
    ensures count { result ≡ length (lines_from asked.master text.now asked.notes asked.body) }
    ensures buffer { out.new ≡ overlaid out.old 0 (lines_from asked.master text.now asked.notes asked.body) }
{
    let mut at = asked.body;
    let mut place = 0;
    for _ in 0..asked.notes {
        let note = notes_text::note_at(asked.master, text, at);
        place = put_period(out, place, note.value.unwrap_or(0));
        at = note.next;
    }
    place
}

fn put_period(out: &mut [u8], at: usize, period: u16) -> usize
    requires { at + length (period_text period) ≤ length out.old }
    ensures place { result ≡ at + length (period_text period) }
    ensures text { out.new ≡ overlaid out.old at (period_text period) }
{
    let number = text_put::put_bytes(out, at, b"period=");
    text_put::put_number(out, number, period as u64, b'\n')
}
