// Proposed lists, read from their lines and put to the call that says yes or no.
use refusals::Refusal;
use std::io;
use text_entries::line_entry_at;

// How many values were read, and the place after them.
#[derive(Clone, Copy)]
struct Values {
    count: usize,
    next: usize,
}

// `lists=R yes` or `lists=R no`. False where the text is no two lists, or where a value does not fit its type.
pub fn check(rt: &impl Print, text: &[u8]) -> io::Result<bool> {
    let Some(answer) = asked(text) else {
        return Ok(false);
    };
    let (no, word) = match answer {
        Ok(true) => (refusals::ACCEPTED, "yes"),
        Ok(false) => (refusals::ACCEPTED, "no"),
        Err(why) => (why.number(), "no"),
    };
    println!(rt; "lists={no} {word}")?;
    Ok(true)
}

fn asked(text: &[u8]) -> Option<Result<bool, Refusal>> {
    let first = line_entry_at(b"master=", text, 0);
    let master = u32::try_from(first.value?).ok()?;
    let mut pitches = [0u32; 64];
    let wanted = read_list(b"pitch=", text, first.next, &mut pitches);
    let mut periods = [0u16; 64];
    let proposed = read_list(b"period=", text, wanted.next, &mut periods);
    if proposed.next < text.len() {
        return None;
    }
    Some(pitch::are_nearest(
        master,
        pitches.get(..wanted.count)?,
        periods.get(..proposed.count)?,
    ))
}

// A list ends at the first line that is none of its own, so bytes are left where one does not fit.
fn read_list<T: TryFrom<u64> + Drop>(key: &[u8], text: &[u8], from: usize, list: &mut [T]) -> Values
where
    T::Error: Drop,
{
    let mut count = 0;
    let mut next = from;
    for place in list.iter_mut() {
        let line = line_entry_at(key, text, next);
        let Some(value) = line.value.and_then(|value| T::try_from(value).ok()) else {
            break;
        };
        *place = value;
        count += 1;
        next = line.next;
    }
    Values { count, next }
}
