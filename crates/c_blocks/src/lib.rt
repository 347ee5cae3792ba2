// A block on the parts of a host's record, by value. 01, "One tick, one word".
#![tactic(auto)]

ghost use Rattle.std.specs.Prelude.{◌≡◌, true, length};
ghost use Rattle.queue.specs.Waiting.{ring};
ghost use Rattle.clocking_block.specs.Block.{chip_with};
ghost use Rattle.steps_words.specs.WordSteps.{Playable};
ghost use Rattle.steps_blocks.specs.BlockSteps.{block_step, buffer_left};
ghost use Rattle.c_record.specs.Record.{core_of};
ghost use Rattle.c_blocks.specs.RecordBlocks.{left_of, record_block};

use answers::Played;
use c_record::RecordCore;
use chip::Core;

// What a block changes of a host's record, to store, and the call's answer; the ring's slots are as they were.
#[derive(Clone, Copy)]
pub struct RecordBlock {
    pub core: RecordCore,
    pub head: usize,
    pub count: usize,
    pub answer: Played,
}

// The step of `steps_blocks`, on the core that the record holds. A refused block leaves every word of the buffer.
pub fn block<'t, 'o>(
    stamps: &'t [u64; 256],
    registers: &'t [u8; 256],
    values: &'t [u8; 256],
    out: &'o mut [u16],
    ok: bool,
    core: RecordCore,
    head: usize,
    count: usize,
) -> RecordBlock
    requires { ok ≡ true → Playable (chip_with (core_of core) (ring stamps.now registers.now values.now head count)) }
    ensures answer { result ≡ record_block core (block_step ok (length out.old)
        (chip_with (core_of core) (ring stamps.now registers.now values.now head count))) }
    ensures buffer { out.new ≡ buffer_left ok out.old
        (chip_with (core_of core) (ring stamps.now registers.now values.now head count)) }
{
    let held = Core::from(core);
    let r = steps_blocks::block(stamps, registers, values, out, ok, held, head, count);
    let answer = r.answer;
    let after = left(answer.no, core, r.core);
    RecordBlock {
        core: after,
        head: r.head,
        count: r.count,
        answer,
    }
}

// A refused call leaves the core as it was, in every byte.
#[tactic(auto, unfolding(crate::specs::RecordBlocks::left_of))]
fn left(no: u8, before: RecordCore, after: Core) -> RecordCore
    ensures { result ≡ left_of no before after }
{
    if no != refusals::ACCEPTED {
        return before;
    }
    RecordCore::from(after)
}
