// Lists of pitches as text, and proposed lists of pitches and periods, through the calls. 02, request 12.
//
// Standard input holds items one after the other. `text=N` on a line of its own, then N bytes: a list of pitches as text. `lists=N`, then
// N bytes: a line `master=`, then lines `pitch=` and lines `period=`, 64 of each at most. What it must write, in `stdout`, is the oracle's
// own reading of 02: `oracle/pitches` writes both files.
#![tactic(auto)]

mod lists;

use standard_input::read_into;
use std::io;
use std::io::Read;
use text_entries::line_entry_at;

fn main(rt: HostRuntime) -> io::Result<()> {
    let mut room = dump_input::room();
    check_all(&rt, &mut rt.stdin(), &mut room)
}

// Item after item; there are fewer than the loop has turns.
fn check_all(rt: &impl Print, input: &mut impl Read, room: &mut [u8]) -> io::Result<()> {
    for _ in 0..1_000_000_000 {
        if !check_next(rt, input, room)? {
            break;
        }
    }
    Ok(())
}

// False where the input has ended, or where what comes next is no item.
fn check_next(rt: &impl Print, input: &mut impl Read, room: &mut [u8]) -> io::Result<bool> {
    let mut header = [0u8; 16];
    if read_header(input, &mut header)? == 0 {
        return Ok(false);
    }
    if check_one(rt, input, &header, room)? {
        return Ok(true);
    }
    println!(rt; "bad")?;
    Ok(false)
}

// How many bytes were read, up to an LF and with it, as far as there is room; none where the input has ended.
fn read_header(input: &mut impl Read, header: &mut [u8]) -> io::Result<usize> {
    let mut length = 0;
    for place in header.iter_mut() {
        let Some(byte) = next_byte(input)? else {
            break;
        };
        *place = byte;
        length += 1;
        if byte == b'\n' {
            break;
        }
    }
    Ok(length)
}

// None where the input has ended.
fn next_byte(input: &mut impl Read) -> io::Result<Option<u8>> {
    let mut one = [0u8; 1];
    let got = read_into(input, &mut one).count()?;
    Ok(if got == 0 { None } else { Some(one[0]) })
}

// The item that follows its header; false where it is no header, where too few bytes follow, or where they are no lists.
fn check_one(
    rt: &impl Print,
    input: &mut impl Read,
    header: &[u8],
    room: &mut [u8],
) -> io::Result<bool> {
    let notes = line_entry_at(b"text=", header, 0).value;
    let lists = line_entry_at(b"lists=", header, 0).value;
    let Some(size) = notes.or(lists) else {
        return Ok(false);
    };
    let Some(text) = read_text(input, room, size as usize)? else {
        return Ok(false);
    };
    if notes.is_none() {
        return lists::check(rt, text);
    }
    check_notes(rt, text)?;
    Ok(true)
}

// So many bytes of the input; none where fewer follow, or where there is no room for them.
fn read_text<'r>(
    input: &mut impl Read,
    room: &'r mut [u8],
    size: usize,
) -> io::Result<Option<&'r [u8]>> {
    let Some(text) = room.get_mut(..size) else {
        return Ok(None);
    };
    let got = read_into(input, text).count()?;
    Ok(if got == size { Some(text) } else { None })
}

// A line `text`, and the list's own output.
fn check_notes(rt: &impl Print, text: &[u8]) -> io::Result<()> {
    let mut out = notes_output::room();
    let length = notes_output::answer(text, &mut out);
    println!(rt; "text")?;
    rt.write_all(&out[..length])
}
