// One word and a block, on a chip record that its owner lends. 01, "One tick, one word": "The cabinet host lends its one chip record and
// reads the new state there afterwards."
#![tactic(auto)]

ghost use Rattle.std.specs.Prelude.{◌≡◌, length};
ghost use Rattle.calls_words.specs.Blocks.{block_buffer, blocked, sampled};

use answers::{Played, Sample};
use chip::Chip;

pub fn compute_next_sample(chip: &mut Chip) -> Sample
    ensures answer { result ≡ (sampled chip.old).answer }
    ensures left { chip.new ≡ (sampled chip.old).chip }
{
    let ok = lent_chip::in_range(&*chip);
    let r = steps_words::compute_next_sample(
        &chip.queue.stamps,
        &chip.queue.registers,
        &chip.queue.values,
        ok,
        chip.core.clocks,
        chip.core.variant,
        chip.core.voice,
        chip.core.channels,
        chip.core.accumulator,
        chip.core.start,
        chip.queue.head,
        chip.queue.count,
    );
    chip.core.voice = r.voice;
    chip.core.channels = r.channels;
    chip.core.accumulator = r.accumulator;
    chip.core.start = r.start;
    chip.queue.head = r.head;
    chip.queue.count = r.count;
    r.answer
}

pub fn block(chip: &mut Chip, out: &mut [u16]) -> Played
    ensures answer { result ≡ (blocked (length out.old) chip.old).answer }
    ensures left { chip.new ≡ (blocked (length out.old) chip.old).chip }
    ensures buffer { out.new ≡ block_buffer out.old chip.old }
{
    let ok = lent_chip::in_range(&*chip);
    let r = steps_blocks::block(
        &chip.queue.stamps,
        &chip.queue.registers,
        &chip.queue.values,
        out,
        ok,
        chip.core,
        chip.queue.head,
        chip.queue.count,
    );
    chip.core = r.core;
    chip.queue.head = r.head;
    chip.queue.count = r.count;
    r.answer
}
