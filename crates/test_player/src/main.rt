// A dump on standard input, and after an empty line a capture, each handed out through buffers of several lengths: how many pieces, how
// many bytes, and their Adler-32. Then what is handed out of texts of 65,536 and of 65,537 bytes.
#![tactic(auto)]

ghost use Rattle.std.specs.Prelude.{◌≤◌, length};

use standard_input::read_into;
use std::{fmt, io};

fn main(rt: HostRuntime) -> io::Result<()> {
    let mut input = dump_input::room();
    let n = read_into(&mut rt.stdin(), &mut input).count()?;
    both(&rt, &input[..n])?;
    // More follows the dump: 10, and one byte more is 11.
    print_line(&rt, input.get(..65_536).unwrap_or(&[]))?;
    print_line(&rt, &input)
}

fn both(rt: &impl Print, text: &[u8]) -> io::Result<()> {
    let (dump, rest) = text.split_at(end_of_dump(text));
    report(rt, dump)?;
    match rest.split_first() {
        Some((_, capture)) => report_capture(rt, capture),
        None => Ok(()),
    }
}

// Where the empty line stands; the end, where there is none.
fn end_of_dump(text: &[u8]) -> usize
    ensures { result ≤ length text.now }
{
    if text.starts_with(b"\n") {
        return 0;
    }
    match text.windows(2).position(|two| two == b"\n\n".as_slice()) {
        Some(at) => at + 1,
        None => text.len(),
    }
}

fn report(rt: &impl Print, text: &[u8]) -> io::Result<()> {
    let mut out = [0u8; 65536];
    for room in [32, 4096, 65536] {
        let mut player = dump_player::start(text);
        let sum = handed_out(&mut out[..room], |out| {
            let piece = dump_player::next_piece(player, text, out);
            player = piece.player;
            piece.length
        });
        println!(rt; "room={room} {sum}")?;
    }
    Ok(())
}

fn report_capture(rt: &impl Print, text: &[u8]) -> io::Result<()> {
    let mut out = [0u8; 65536];
    for room in [32, 100, 4096, 65536] {
        let mut player = capture_steps::start(text);
        let sum = handed_out(&mut out[..room], |out| {
            let piece = capture_player::next_piece(player, text, out);
            player = piece.player;
            piece.length
        });
        println!(rt; "capture room={room} {sum}")?;
    }
    Ok(())
}

fn print_line(rt: &impl Print, text: &[u8]) -> io::Result<()> {
    let mut out = [0u8; 4096];
    let piece = dump_player::next_piece(dump_player::start(text), text, &mut out);
    rt.write_all(out.get(..piece.length).unwrap_or(&[]))
}

#[derive(Clone, Copy)]
struct Sum {
    pieces: u64,
    bytes: usize,
    low: u64,
    high: u64,
}

// Until the empty piece; no text has more pieces than the loop has turns.
fn handed_out<F: FnMut(&mut [u8]) -> usize>(out: &mut [u8], mut next_piece: F) -> Sum
    requires { F.IsAlwaysCallable next_piece }
{
    let mut sum = Sum {
        pieces: 0,
        bytes: 0,
        low: 1,
        high: 0,
    };
    for _ in 0..10_000_000 {
        let length = next_piece(out);
        if length == 0 {
            break;
        }
        sum.add(out.get(..length).unwrap_or(&[]));
    }
    sum
}

impl Sum {
    fn add(&mut self, piece: &[u8]) {
        self.pieces = self.pieces.wrapping_add(1);
        self.bytes = self.bytes.wrapping_add(piece.len());
        for byte in piece {
            self.low = self.low.wrapping_add(u64::from(*byte)) % 65521;
            self.high = self.high.wrapping_add(self.low) % 65521;
        }
    }
}

impl fmt::Display for Sum {
    fn fmt<W: fmt::Write>(&self, f: &mut fmt::Formatter<W>) -> fmt::Result {
        let pieces = self.pieces;
        let bytes = self.bytes;
        let adler = self.high % 65521 * 65536 + self.low % 65521;
        write!(f, "pieces={pieces} bytes={bytes} adler={adler:08x}")
    }
}
