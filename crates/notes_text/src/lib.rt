// A list of pitches as text: a line `master=`, then lines `pitch=`, each answered by the nearest period. 02, request 12.
#![tactic(auto)]

ghost use Rattle.std.specs.Prelude.{◌≡◌, ◌≤◌, length};
ghost use Rattle.notes_text.specs.Checked.{asked_in, master_line, note_at, notes_from, period_line};

use dump_clocks::{LineRefused, at_line};
use refusals::Refusal;
use text_entries::{Entry, line_entry_at};

// `notes` lines `pitch=` follow, and the first stands at `body`.
#[derive(Clone, Copy)]
pub struct Asked {
    pub master: u32,
    pub notes: u32,
    pub body: usize,
}

#[tactic(auto, unfolding(crate::specs::Checked::asked_in))]
pub fn check(text: &[u8]) -> Result<Asked, LineRefused>
    ensures { result ≡ asked_in text.now }
{
    if text.len() > dump_clocks::LONGEST_TEXT {
        return Err(LineRefused {
            why: Refusal::DumpTooLong,
            line: 0,
        });
    }
    let one = line_entry_at(b"master=", text, 0);
    let master = at_line(master_line(one.value), 1)?;
    let notes = notes_from(master, text, one.next)?;
    Ok(Asked {
        master,
        notes,
        body: one.next,
    })
}

// One line `pitch=`: the period that answers it, and the place of the next line.
#[tactic(auto, unfolding(crate::specs::Checked::note_at))]
pub fn note_at(master: u32, text: &[u8], at: usize) -> Entry<Result<u16, Refusal>>
    ensures { result ≡ note_at master text.now at }
{
    let line = line_entry_at(b"pitch=", text, at);
    Entry {
        value: period_line(master, line.value),
        next: line.next,
    }
}

#[tactic(auto, unfolding(crate::specs::Checked::master_line, pitch::specs::Pitch::master_in))]
fn master_line(value: Option<u64>) -> Result<u32, Refusal>
    ensures { result ≡ master_line value }
{
    let master = value.ok_or(Refusal::LineNotOfForm)?;
    if master < pitch::LOWEST_MASTER as u64 {
        return Err(Refusal::MasterTooHigh);
    }
    if master > pitch::HIGHEST_MASTER as u64 {
        return Err(Refusal::MasterTooHigh);
    }
    Ok(master as u32)
}

// A pitch past 32 bits is refused as the highest of 32 bits is.
#[tactic(auto, unfolding(crate::specs::Checked::period_line))]
fn period_line(master: u32, value: Option<u64>) -> Result<u16, Refusal>
    ensures { result ≡ period_line master value }
{
    let pitch = value.ok_or(Refusal::LineNotOfForm)?;
    pitch::nearest_period(master, u32::try_from(pitch).unwrap_or(u32::MAX))
}

// Line after line to the text's end; line 2 is the first. A line says where the next begins, so no range is counted over.
fn notes_from(master: u32, text: &[u8], body: usize) -> Result<u32, LineRefused>
    requires { length text.now ≤ 65536 }
    ensures { result ≡ notes_from master text.now (length text.now) 0 body }
{
    let mut notes: u32 = 0;
    let mut at = body;
    while at < text.len() {
        let note = note_at(master, text, at);
        at_line(note.value, notes + 2)?;
        notes += 1;
        at = note.next;
    }
    Ok(notes)
}
