// One word, and a block of words into a lent buffer. 01, "One tick, one word".
#![tactic(auto)]

ghost use Rattle.std.specs.Prelude.{◌≡◌, length};
ghost use Rattle.calls_words.specs.Blocks.{block_buffer, block_refused, blocked, sampled};

use answers::{Blocked, Played, Sampled};
use chip::Chip;

// A block is refused whole or rendered whole: a refusal leaves every word of the buffer.
pub fn block(chip: Chip, out: &mut [u16]) -> Blocked
    ensures answer { result ≡ blocked (length out.old) chip }
    ensures buffer { out.new ≡ block_buffer out.old chip }
{
    let ok = chip::in_range(chip);
    let ring = chip.queue;
    let played = steps_blocks::block(
        &ring.stamps,
        &ring.registers,
        &ring.values,
        out,
        ok,
        chip.core,
        ring.head,
        ring.count,
    );
    let core = played.core;
    let mut queue = ring;
    queue.head = played.head;
    queue.count = played.count;
    let after = Chip { core, queue };
    let answer = played.answer;
    Blocked {
        chip: after,
        answer,
    }
}

// The pre-filter word, its ticks and what its writes changed. It answers as a block of one does, and does not go through the block's loop.
pub fn compute_next_sample(chip: Chip) -> Sampled
    ensures { result ≡ sampled chip }
{
    let ok = chip::in_range(chip);
    let ring = chip.queue;
    let mut core = chip.core;
    let word = steps_words::compute_next_sample(
        &ring.stamps,
        &ring.registers,
        &ring.values,
        ok,
        core.clocks,
        core.variant,
        core.voice,
        core.channels,
        core.accumulator,
        core.start,
        ring.head,
        ring.count,
    );
    let voice = word.voice;
    let channels = word.channels;
    core.voice = voice;
    core.channels = channels;
    core.accumulator = word.accumulator;
    core.start = word.start;
    let mut queue = ring;
    queue.head = word.head;
    queue.count = word.count;
    let after = Chip { core, queue };
    let answer = word.answer;
    Sampled {
        chip: after,
        answer,
    }
}

// Nothing changes: 0 words, 0 ticks, 0 and 0.
pub fn refused(chip: Chip, number: u8) -> Blocked
    ensures { result ≡ block_refused number chip }
{
    let answer = Played {
        no: number,
        words: 0,
        ticks: 0,
        changed: 0,
        restarted: 0,
    };
    Blocked { chip, answer }
}
