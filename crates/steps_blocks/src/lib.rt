// A block of words, on the parts of a record that it reads and changes: `ok` is the test of the record. 01, "One tick,
// one word"; 02, request 03.
#![tactic(auto)]

ghost use Rattle.std.specs.Prelude.{◌≡◌, true, length};
ghost use Rattle.queue.specs.Waiting.{ring};
ghost use Rattle.clocking_block.specs.Block.{chip_with};
ghost use Rattle.steps_words.specs.WordSteps.{Playable};
ghost use Rattle.steps_blocks.specs.BlockSteps.{block_step, buffer_left, unrendered};

use answers::Played;
use chip::Core;

// What a block changes, to store, and the call's answer; the ring's slots are as they were.
#[derive(Clone, Copy)]
pub struct BlockStep {
    pub core: Core,
    pub head: usize,
    pub count: usize,
    pub answer: Played,
}

// The ring is lent where it lies. A block is refused whole or rendered whole: a refusal leaves every word of the buffer.
pub fn block<'t, 'o>(
    stamps: &'t [u64; 256],
    registers: &'t [u8; 256],
    values: &'t [u8; 256],
    out: &'o mut [u16],
    ok: bool,
    core: Core,
    head: usize,
    count: usize,
) -> BlockStep
    requires { ok ≡ true → Playable (chip_with core (ring stamps.now registers.now values.now head count)) }
    ensures answer { result ≡ block_step ok (length out.old)
        (chip_with core (ring stamps.now registers.now values.now head count)) }
    ensures buffer { out.new ≡ buffer_left ok out.old
        (chip_with core (ring stamps.now registers.now values.now head count)) }
{
    if !ok {
        return unrendered(core, head, count, refusals::OUT_OF_RANGE);
    }
    let words = out.len();
    if let Err(why) = block_limits::accept_block(core.start, core.clocks.cycles, words) {
        return unrendered(core, head, count, why.number());
    }
    let voice = core.voice;
    let bytes = voice.registers;
    let rendered = clocking_block::render(stamps, registers, values, out, core, head, count);
    let after = rendered.core;
    // The slots that were applied still stand in the ring, from the place before to the place after.
    let told = queue_effects::effects(registers, values, head, count - rendered.count, bytes);
    let answer = Played {
        no: refusals::ACCEPTED,
        words,
        ticks: rendered.ticks,
        changed: told.changed,
        restarted: told.restarted,
    };
    BlockStep {
        core: after,
        head: rendered.head,
        count: rendered.count,
        answer,
    }
}

// Nothing changes: 0 words, 0 ticks, 0 and 0.
fn unrendered(core: Core, head: usize, count: usize, number: u8) -> BlockStep
    ensures { result ≡ unrendered core head count number }
{
    let answer = Played {
        no: number,
        words: 0,
        ticks: 0,
        changed: 0,
        restarted: 0,
    };
    BlockStep {
        core,
        head,
        count,
        answer,
    }
}
