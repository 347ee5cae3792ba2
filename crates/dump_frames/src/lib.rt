// Playing a frame of a dump. 01, "The dump player"; 02, request 03.
#![tactic(auto)]

ghost use Rattle.std.specs.Prelude.{◌≡◌, ◌+◌, ◌<◌, length};
ghost use Rattle.text_lines.specs.Bytes.{bytes};
ghost use Rattle.text_lines.specs.Lines.{value_at};
ghost use Rattle.dump_frames.specs.Frame.{added, frame_buffer, frame_played, frame_reported, load_refused};

use answers::{Applied, Blocked, Counts, Played};
use chip::Chip;

// The frame whose line stands at a place of the text: its registers are written, and what changed is counted. A refusal leaves the chip.
pub fn load_frame(chip: Chip, text: &[u8], at: usize) -> Applied
    ensures { result ≡ frame_reported (value_at (bytes "regs=") text.now at) chip }
{
    load_value(chip, text_lines::value_at(b"regs=", text, at))
}

fn load_value(chip: Chip, value: &[u8]) -> Applied
    ensures { result ≡ frame_reported value.now chip }
{
    if !chip::in_range(chip) {
        return not_loaded(chip, refusals::OUT_OF_RANGE);
    }
    if !dump_lines::is_frame(value) {
        return not_loaded(chip, refusals::LINE_NOT_OF_FORM);
    }
    let voice = chip.core.voice;
    let before = voice.registers;
    let after = dump_writes::write_frame(voice, value);
    let left = after.registers;
    let answer = Counts {
        no: refusals::ACCEPTED,
        changed: write_effects::differences(before, left),
        restarted: dump_writes::restarts(value),
    };
    let chip = chip_parts::with_voice(chip, after);
    Applied { chip, answer }
}

fn not_loaded(chip: Chip, number: u8) -> Applied
    ensures { result ≡ load_refused number chip }
{
    let answer = Counts {
        no: number,
        changed: 0,
        restarted: 0,
    };
    Applied { chip, answer }
}

// The same frame whole: its registers, then as many words as the buffer has room for. What its writes changed and what those of its
// words did is counted together. A refusal leaves the chip and every word of the buffer.
pub fn play_frame(chip: Chip, text: &[u8], at: usize, out: &mut [u16]) -> Blocked
    ensures answer { result ≡ frame_played (value_at (bytes "regs=") text.now at) (length out.old) chip }
    ensures buffer { out.new ≡ frame_buffer (value_at (bytes "regs=") text.now at) out.old chip }
{
    let loaded = load_frame(chip, text, at);
    if loaded.answer.no != refusals::ACCEPTED {
        return calls_words::refused(chip, loaded.answer.no);
    }
    let played = calls_words::block(loaded.chip, out);
    if played.answer.no != refusals::ACCEPTED {
        return calls_words::refused(chip, played.answer.no);
    }
    let chip = played.chip;
    let answer = with_load(loaded.answer, played.answer);
    Blocked { chip, answer }
}

fn with_load(loaded: Counts, played: Played) -> Played
    requires changed_bound { loaded.changed + played.changed < 0x1_0000_0000 }
    requires restarted_bound { loaded.restarted + played.restarted < 0x1_0000_0000 }
    ensures { result ≡ added loaded.changed loaded.restarted played }
{
    Played {
        no: played.no,
        words: played.words,
        ticks: played.ticks,
        changed: loaded.changed + played.changed,
        restarted: loaded.restarted + played.restarted,
    }
}
