// A flush, on the parts of a host's record, with its three drums: an accepted call leaves a drum that is off at level 0. `ok` is the test
// of the record. 01, "Registers and ports" and "Numbers a call can answer".
#![tactic(auto)]

ghost use Rattle.std.specs.Prelude.{◌≡◌, true};
ghost use Rattle.queue.specs.Waiting.{QueueInRange, ring};
ghost use Rattle.steps_queue.specs.QueueSteps.{flush_step};
ghost use Rattle.c_queue.specs.RecordQueue.{record_flushed};

use c_record::RecordDrum;
use c_steps::RecordStep;
use registers::Voice;
use steps_channels::Three;
use steps_queue::FlushStep;

// The step of `steps_queue`; the ring is lent where it lies.
pub fn flush_pending_writes<'t>(
    stamps: &'t [u64; 256],
    registers: &'t [u8; 256],
    values: &'t [u8; 256],
    ok: bool,
    drums: Three<RecordDrum>,
    voice: Voice,
    head: usize,
    count: usize,
) -> RecordStep<FlushStep>
    requires { ok ≡ true → QueueInRange (ring stamps.now registers.now values.now head count) }
    ensures { result ≡ record_flushed drums (flush_step ok voice (ring stamps.now registers.now values.now head count)) }
{
    let step = steps_queue::flush_pending_writes(stamps, registers, values, ok, voice, head, count);
    c_steps::recorded(step.answer.no, drums, step)
}
