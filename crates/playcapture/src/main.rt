// The player of captures: a capture on standard input, its words on standard output. 02, request 01.
#![tactic(auto)]

ghost use Rattle.std.specs.Prelude.{◌≡◌, IfOk, length};
ghost use Rattle.capture_played.specs.Whole.{printed};
ghost use Rattle.laws_capture_player.proofs.Standing.{Stands, rest_of};
ghost use Rattle.laws_capture_player.proofs.Short.{printed-short};

use capture_steps::Player;
use failures::failed;
use pieces_out::Pieces;
use std::io;
use std::process::ExitCode;

fn main(rt: HostRuntime) -> ExitCode {
    let mut input = dump_input::room();
    let got = standard_input::read_into(&mut rt.stdin(), &mut input);
    if let Some(why) = got.failed {
        return failed(&rt, "playcapture: standard input", why);
    }
    match play(&rt, &input[..got.bytes]) {
        Ok(_) => ExitCode::SUCCESS,
        Err(why) => failed(&rt, "playcapture: standard output", why),
    }
}

// Answers how many bytes were written.
fn play(rt: &impl Print, text: &[u8]) -> io::Result<usize>
    ensures { IfOk result (λ bytes. bytes ≡ length (printed text.now)) }
{
    let mut out = [0u8; 65536];
    let player = capture_steps::start(text);
    let mut playing = Playing { text, player };
    playing.write_out(rt, &mut out)
}

// A capture, and how far it is played.
#[derive(Drop)]
struct Playing<'t> {
    text: &'t [u8],
    player: Player,
}

impl Pieces for Playing<'_> {
    ghost whole = { λ p. printed p.text.now };

    ghost rest = { λ p. rest_of p.text.now p.player };

    ghost stands = { λ p. Stands p.text.now p.player };

    ghost short = { λ p. printed-short p.text.now };

    fn next_piece(&mut self, out: &mut [u8]) -> usize {
        let piece = capture_player::next_piece(self.player, self.text, out);
        self.player = piece.player;
        piece.length
    }
}
