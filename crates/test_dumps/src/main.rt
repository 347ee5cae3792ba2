// Dump texts and captures, good and damaged, through the checks. 01, "The dump player"; 02, request 01.
//
// Standard input holds the texts one after the other: `text=N` on a line of its own, then N bytes as they are, or `capture=N` where
// they are to be read as a capture. What it must write, in `stdout`, is the oracle's own reading of 01 and 02: `oracle/dumps` draws the
// texts and writes both files.
#![tactic(auto)]

use capture::Capture;
use dump::Dump;
use dump_clocks::LineRefused;
use standard_input::read_into;
use std::io;
use std::io::Read;
use text_entries::line_entry_at;

fn main(rt: HostRuntime) -> io::Result<()> {
    let mut room = dump_input::room();
    check_all(&rt, &mut rt.stdin(), &mut room)
}

// Text after text; there are fewer than the loop has turns.
fn check_all(rt: &impl Print, input: &mut impl Read, room: &mut [u8]) -> io::Result<()> {
    for _ in 0..100_000 {
        if !check_next(rt, input, room)? {
            break;
        }
    }
    Ok(())
}

// False where the input has ended, or where what comes next is no text.
fn check_next(rt: &impl Print, input: &mut impl Read, room: &mut [u8]) -> io::Result<bool> {
    let mut header = [0u8; 16];
    if read_header(input, &mut header)? == 0 {
        return Ok(false);
    }
    if check_one(rt, input, &header, room)? {
        return Ok(true);
    }
    println!(rt; "bad")?;
    Ok(false)
}

// How many bytes were read, up to an LF and with it, as far as there is room; none where the input has ended.
fn read_header(input: &mut impl Read, header: &mut [u8]) -> io::Result<usize> {
    let mut length = 0;
    for place in header.iter_mut() {
        let Some(byte) = next_byte(input)? else {
            break;
        };
        *place = byte;
        length += 1;
        if byte == b'\n' {
            break;
        }
    }
    Ok(length)
}

// None where the input has ended.
fn next_byte(input: &mut impl Read) -> io::Result<Option<u8>> {
    let mut one = [0u8; 1];
    let got = read_into(input, &mut one).count()?;
    Ok(if got == 0 { None } else { Some(one[0]) })
}

// The text that follows its header; false where it is no header, or where too few bytes follow.
fn check_one(
    rt: &impl Print,
    input: &mut impl Read,
    header: &[u8],
    room: &mut [u8],
) -> io::Result<bool> {
    let dump = line_entry_at(b"text=", header, 0).value;
    let capture = line_entry_at(b"capture=", header, 0).value;
    let Some(size) = dump.or(capture) else {
        return Ok(false);
    };
    let Some(text) = read_text(input, room, size as usize)? else {
        return Ok(false);
    };
    if dump.is_some() {
        say_dump(rt, dump::check(text))?;
    } else {
        say_capture(rt, capture::check(text))?;
    }
    Ok(true)
}

// So many bytes of the input; none where fewer follow, or where there is no room for them.
fn read_text<'r>(
    input: &mut impl Read,
    room: &'r mut [u8],
    size: usize,
) -> io::Result<Option<&'r [u8]>> {
    let Some(text) = room.get_mut(..size) else {
        return Ok(None);
    };
    let got = read_into(input, text).count()?;
    Ok(if got == size { Some(text) } else { None })
}

// One line for each text: `no line`, and for an accepted one ` master rate words frames` after them.
fn say_dump(rt: &impl Print, tested: Result<Dump, LineRefused>) -> io::Result<()> {
    match tested {
        Ok(dump) => {
            let master = dump.master;
            let rate = dump.rate;
            let words = dump.words;
            let frames = dump.frames;
            println!(rt; "0 0 {master} {rate} {words} {frames}")
        }
        Err(refused) => say_refused(rt, refused),
    }
}

// The same of a capture, with ` master rate writes words`.
fn say_capture(rt: &impl Print, tested: Result<Capture, LineRefused>) -> io::Result<()> {
    match tested {
        Ok(capture) => {
            let master = capture.master;
            let rate = capture.rate;
            let writes = capture.writes;
            let words = capture.words;
            println!(rt; "0 0 {master} {rate} {writes} {words}")
        }
        Err(refused) => say_refused(rt, refused),
    }
}

fn say_refused(rt: &impl Print, refused: LineRefused) -> io::Result<()> {
    let no = refused.why.number();
    let line = refused.line;
    println!(rt; "{no} {line}")
}
