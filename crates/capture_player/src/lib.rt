// The player of captures: a text's output, handed out piece by piece into a lent buffer. 02, request 01.
#![tactic(auto)]

ghost use Rattle.std.specs.Prelude.{◌≡◌, length};
ghost use Rattle.text_put.specs.Text.{overlaid};
ghost use Rattle.capture_player.specs.Player.{bytes_of, piece_of};

use capture_steps::{Piece, Player};

// The next bytes of the output, at the buffer's start: step after step, as long as there is room. 0 bytes: all have been handed out, or the
// buffer is shorter than LEAST_ROOM.
pub fn next_piece(player: Player, text: &[u8], out: &mut [u8]) -> Piece
    ensures answer { result ≡ piece_of text.now (length out.old) player }
    ensures buffer { out.new ≡ overlaid out.old 0 (bytes_of text.now (length out.old) player) }
{
    let mut player = player;
    let mut filled = 0;
    // no range to count over: how far a step moves is what it answers
    loop {
        let step = capture_steps::step(player, text, &mut out[filled..]);
        if step.length == 0 {
            break;
        }
        filled += step.length;
        player = step.player;
    }
    Piece {
        player,
        length: filled,
    }
}
