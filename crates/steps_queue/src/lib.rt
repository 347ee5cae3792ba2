// A flush, on the parts of a record that it reads and changes: `ok` is the test of the record. 01, "Registers and ports"; 02,
// request 03.
#![tactic(auto)]

ghost use Rattle.std.specs.Prelude.{◌≡◌, true};
ghost use Rattle.queue.specs.Waiting.{QueueInRange, ring};
ghost use Rattle.steps_queue.specs.QueueSteps.{flush_step};

use answers::Counts;
use registers::Voice;

// The voice, the ring's place and its count to store, and the call's answer; the ring's slots are as they were.
#[derive(Clone, Copy)]
pub struct FlushStep {
    pub voice: Voice,
    pub head: usize,
    pub count: usize,
    pub answer: Counts,
}

// The ring is lent where it lies.
pub fn flush_pending_writes<'t>(
    stamps: &'t [u64; 256],
    registers: &'t [u8; 256],
    values: &'t [u8; 256],
    ok: bool,
    voice: Voice,
    head: usize,
    count: usize,
) -> FlushStep
    requires { ok ≡ true → QueueInRange (ring stamps.now registers.now values.now head count) }
    ensures { result ≡ flush_step ok voice (ring stamps.now registers.now values.now head count) }
{
    if !ok {
        return FlushStep {
            voice,
            head,
            count,
            answer: Counts {
                no: refusals::OUT_OF_RANGE,
                changed: 0,
                restarted: 0,
            },
        };
    }
    let past = (head + count) % 256;
    let bytes = voice.registers;
    let told = queue_effects::effects(registers, values, head, count, bytes);
    let answer = Counts {
        no: refusals::ACCEPTED,
        changed: told.changed,
        restarted: told.restarted,
    };
    let after = queue_flush::flush(stamps, registers, values, head, count, voice);
    FlushStep {
        voice: after,
        head: past,
        count: 0,
        answer,
    }
}
