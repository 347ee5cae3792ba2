// A player's output, written out piece after piece. Nothing here knows what is played.
#![tactic(auto)]

ghost use Rattle.std.specs.Prelude.{◌≡◌, ◌≤◌, ◌<◌, ◌^◌, ℕ, List, [], ◌++◌, IfOk, length, take};
ghost use Rattle.pieces_out.specs.Written.{NextBytes};

use std::io;

// What hands out an output piece after piece.
pub trait Pieces {
    ghost whole: { Self → List ℕ };

    // what of it has yet to be handed out
    ghost rest: { Self → List ℕ };

    // what holds of it from its start on
    ghost stands: { Self → Type 0 };

    // The next piece stands at the buffer's start; it is empty only where nothing is left. Answers its length.
    fn next_piece(&mut self, out: &mut [u8]) -> usize
        requires room { 32 ≤ length out.old }
        requires stands { stands self.old }
        ensures within { result ≤ length out.new }
        ensures part { take result out.new ++ rest self.new ≡ rest self.old }
        ensures last { result ≡ 0 → rest self.old ≡ [] }
        ensures whole { whole self.new ≡ whole self.old }
        ensures stands { stands self.new };

    // Piece after piece, until the empty one or a write that fails. Answers how many bytes were written.
    final fn write_out(&mut self, rt: &impl Print, out: &mut [u8]) -> io::Result<usize>
        requires room { 32 ≤ length out.old }
        requires start { rest self.old ≡ whole self.old }
        requires stands { stands self.old }
        ensures { IfOk result (λ bytes. bytes ≡ length (whole self.old)) }
    {
        let mut bytes = 0;
        loop {
            let n = self.next_piece(out);
            if n == 0 {
                return Ok(bytes);
            }
            self.write_next(rt, bytes, &out[..n])?;
            bytes += n;
        }
    }

    // What is proved ends here: each write is asked for the output's next bytes. That they are written is the kit's.
    final fn write_next(&self, rt: &impl Print, place: usize, bytes: &[u8]) -> io::Result<()>
        requires { NextBytes (whole self.now) place bytes.now }
    {
        rt.write_all(bytes)
    }

    // an output's length is one that can be counted
    ghost short: { (p : Self) → length (whole p) < 2 ^ 32 };
}
