// One step of the player of captures: the next lines of the output, into a lent buffer. 02, request 01.
#![tactic(auto)]

ghost use Rattle.std.specs.Prelude.{◌≡◌, ◌≤◌, length};
ghost use Rattle.text_put.specs.Text.{overlaid};
ghost use Rattle.capture_output.specs.Ends.{first_line, last_line};
ghost use Rattle.capture_steps.specs.Steps.{course_lines, course_step, first_step, free_for, last_step, start_of, step_lines, step_of, word_lines, words_for, words_step};

use capture::Captured;
use chip::Chip;

// The shortest buffer that is filled: any line that is printed has room in it.
pub const LEAST_ROOM: usize = 32;

// Where the player of a text stands: what the check said; the chip, the place and number of the writes yet to be passed and the number of
// words yet to be handed out; whether the first and the last line have been.
#[derive(Clone, Copy)]
pub struct Player {
    pub verdict: Captured,
    pub chip: Chip,
    pub at: usize,
    pub writes: u16,
    pub words: u32,
    pub begun: bool,
    pub ended: bool,
}

// How many bytes were handed out, and where the player stands then.
#[derive(Clone, Copy)]
pub struct Piece {
    pub player: Player,
    pub length: usize,
}

// The player before its first byte. All is checked before a word is handed out; of a refused capture the first line is the last.
#[tactic(auto, unfolding(crate::specs::Steps::start_of, capture::specs::Checked::capture_of))]
pub fn start(text: &[u8]) -> Player
    ensures { result ≡ start_of text.now }
{
    let verdict = Captured::from(capture::check(text));
    Player {
        verdict,
        chip: calls_making::with_clocks(verdict.master, verdict.rate).chip,
        at: verdict.body,
        writes: verdict.writes,
        words: verdict.words,
        begun: false,
        ended: verdict.no != refusals::ACCEPTED,
    }
}

// The first line; words that need nothing passed between them; or the last line. 0 bytes: all have been handed out, or the buffer is
// shorter than LEAST_ROOM.
pub fn step(player: Player, text: &[u8], out: &mut [u8]) -> Piece
    ensures answer { result ≡ step_of text.now (length out.old) player }
    ensures buffer { out.new ≡ overlaid out.old 0 (step_lines text.now (length out.old) player) }
{
    if out.len() < LEAST_ROOM {
        return Piece { player, length: 0 };
    }
    if !player.begun {
        return give_first_line(player, out);
    }
    if player.ended {
        return Piece { player, length: 0 };
    }
    if player.words == 0 {
        return give_last_line(player, refusals::ACCEPTED, player.writes, out);
    }
    give_course(player, text, out)
}

fn give_first_line(player: Player, out: &mut [u8]) -> Piece
    requires { 32 ≤ length out.old }
    ensures answer { result ≡ first_step player }
    ensures buffer { out.new ≡ overlaid out.old 0 (first_line player.verdict) }
{
    let verdict = player.verdict;
    let length = capture_output::put_first_line(out, verdict);
    let mut player = player;
    player.begun = true;
    Piece { player, length }
}

fn give_last_line(player: Player, no: u8, left: u16, out: &mut [u8]) -> Piece
    requires { 32 ≤ length out.old }
    ensures answer { result ≡ last_step no left player }
    ensures buffer { out.new ≡ overlaid out.old 0 (last_line no player.verdict.writes left) }
{
    let verdict = player.verdict;
    let length = capture_output::put_last_line(out, no, verdict.writes, left);
    let mut player = player;
    player.ended = true;
    Piece { player, length }
}

// What is due is passed, and then come words; or the line of the write that was refused.
fn give_course(player: Player, text: &[u8], out: &mut [u8]) -> Piece
    requires { 32 ≤ length out.old }
    ensures answer { result ≡ course_step text.now (length out.old) player }
    ensures buffer { out.new ≡ overlaid out.old 0 (course_lines text.now (length out.old) player) }
{
    let chip = player.chip;
    let passed = capture_passing::pass_due(chip, text, player.at, player.writes);
    if passed.no != refusals::ACCEPTED {
        return give_last_line(player, passed.no, passed.writes, out);
    }
    let after = passed.chip;
    let mut player = player;
    player.chip = after;
    player.at = passed.at;
    player.writes = passed.writes;
    give_words(player, text, out)
}

fn give_words(player: Player, text: &[u8], out: &mut [u8]) -> Piece
    ensures answer { result ≡ words_step text.now (length out.old) player }
    ensures buffer { out.new ≡ overlaid out.old 0 (word_lines text.now (length out.old) player) }
{
    let mut words = [0u16; 4096];
    let n = dump_progress::words_in(free_words(player, text), out.len());
    give_lines(player, text, &mut words[..n], out)
}

// Those that need nothing passed before them.
fn free_words(player: Player, text: &[u8]) -> u32
    ensures { result ≡ free_for text.now player }
{
    let core = player.chip.core;
    capture_passing::free_words(
        text,
        player.at,
        player.writes,
        core.start,
        core.clocks.cycles,
        player.words,
    )
}

fn give_lines(player: Player, text: &[u8], words: &mut [u16], out: &mut [u8]) -> Piece
    requires { length words.old ≡ words_for text.now (length out.old) player }
    ensures answer { result ≡ words_step text.now (length out.old) player }
    ensures buffer { out.new ≡ overlaid out.old 0 (word_lines text.now (length out.old) player) }
{
    let chip = player.chip;
    let n = words.len() as u32;
    let block = calls_words::block(chip, words);
    if block.answer.no != refusals::ACCEPTED {
        return Piece { player, length: 0 };
    }
    let length = dump_words::put_words(out, 0, words);
    let rendered = block.chip;
    let mut player = player;
    player.chip = rendered;
    player.words -= n;
    Piece { player, length }
}
