// The dump player as a value: a text's output, handed out piece by piece into a lent buffer. 01, "The dump player".
#![tactic(auto)]

ghost use Rattle.std.specs.Prelude.{◌≡◌, ◌≤◌, ◌<◌, length};
ghost use Rattle.text_put.specs.Text.{overlaid};
ghost use Rattle.dump_output.specs.Printed.{first_line};
ghost use Rattle.dump_progress.specs.Progress.{words_for};
ghost use Rattle.dump_player.specs.Player.{bytes_of, first_piece, frame_begun, piece_of, readied, start_of, word_lines, words_piece};

use chip::Chip;
use dump::Verdict;
use dump_progress::Progress;

// The shortest buffer that is filled: any line that is printed has room in it.
pub const LEAST_ROOM: usize = 32;

// Where the player of a text stands: what the check said, the place of the next frame's line, the chip, and how far the output has
// been handed out.
#[derive(Clone, Copy)]
pub struct Player {
    pub verdict: Verdict,
    pub at: usize,
    pub chip: Chip,
    pub progress: Progress,
}

// How many bytes were handed out, and where the player stands then.
#[derive(Clone, Copy)]
pub struct Piece {
    pub player: Player,
    pub length: usize,
}

// The player before its first byte. All is checked before a word is handed out.
pub fn start(text: &[u8]) -> Player
    ensures { result ≡ start_of text.now }
{
    let verdict = Verdict::from(dump::check(text));
    let made = calls_making::with_clocks(verdict.master, verdict.rate);
    Player {
        verdict,
        at: verdict.body,
        chip: made.chip,
        progress: Progress {
            begun: false,
            frames: 0,
            left: 0,
        },
    }
}

// The next bytes of the output, at the buffer's start: whole lines, the first one or some of one frame's. 0 bytes: all have been
// handed out, or the buffer is shorter than LEAST_ROOM.
pub fn next_piece(player: Player, text: &[u8], out: &mut [u8]) -> Piece
    ensures answer { result ≡ piece_of text.now (length out.old) player }
    ensures buffer { out.new ≡ overlaid out.old 0 (bytes_of text.now (length out.old) player) }
{
    if out.len() < LEAST_ROOM {
        return Piece { player, length: 0 };
    }
    let progress = player.progress;
    if progress.begun {
        return give_words(ready(player, text), out);
    }
    give_first_line(player, out)
}

fn give_first_line(player: Player, out: &mut [u8]) -> Piece
    requires { 32 ≤ length out.old }
    ensures answer { result ≡ first_piece player }
    ensures buffer { out.new ≡ overlaid out.old 0 (first_line player.verdict) }
{
    let length = dump_output::put_first_line(out, player.verdict);
    let progress = dump_progress::first_line_given(player.progress);
    Piece {
        player: Player { progress, ..player },
        length,
    }
}

fn ready(player: Player, text: &[u8]) -> Player
    ensures { result ≡ readied text.now player }
{
    if dump_progress::frame_due(player.progress, player.verdict.frames) {
        return begin_frame(player, text);
    }
    player
}

// Its registers are written, and all its words are left.
fn begin_frame(player: Player, text: &[u8]) -> Player
    requires { player.progress.frames < 65535 }
    ensures { result ≡ frame_begun text.now player }
{
    let loaded = dump_frames::load_frame(player.chip, text, player.at);
    if loaded.answer.no != refusals::ACCEPTED {
        return player;
    }
    let line = text_lines::line_at(text, player.at);
    let progress = dump_progress::frame_begins(player.progress, player.verdict.words);
    Player {
        verdict: player.verdict,
        at: line.next,
        chip: loaded.chip,
        progress,
    }
}

fn give_words(player: Player, out: &mut [u8]) -> Piece
    ensures answer { result ≡ words_piece (length out.old) player }
    ensures buffer { out.new ≡ overlaid out.old 0 (word_lines (length out.old) player) }
{
    let mut words = [0u16; 4096];
    let n = dump_progress::words_for(player.progress, out.len());
    give_lines(player, &mut words[..n], out)
}

fn give_lines(player: Player, words: &mut [u16], out: &mut [u8]) -> Piece
    requires { length words.old ≡ words_for (length out.old) player.progress }
    ensures answer { result ≡ words_piece (length out.old) player }
    ensures buffer { out.new ≡ overlaid out.old 0 (word_lines (length out.old) player) }
{
    let progress = dump_progress::words_given(player.progress, words.len());
    let block = calls_words::block(player.chip, words);
    if block.answer.no != refusals::ACCEPTED {
        return Piece { player, length: 0 };
    }
    let length = dump_words::put_words(out, 0, words);
    let player = Player {
        chip: block.chip,
        progress,
        ..player
    };
    Piece { player, length }
}
