// All waiting writes applied. 01, "Registers and ports".
#![tactic(auto)]

ghost use Rattle.std.specs.Prelude.{◌≡◌};
ghost use Rattle.queue.specs.Waiting.{QueueInRange, ring, waiting};
ghost use Rattle.queue_flush.specs.Applied.{apply_all};

use registers::Voice;

// 01: "A flush applies all waiting writes in order", whatever their stamps. The ring is lent where it lies, and no slot is written.
pub fn flush<'t>(
    stamps: &'t [u64; 256],
    registers: &'t [u8; 256],
    values: &'t [u8; 256],
    head: usize,
    count: usize,
    voice: Voice,
) -> Voice
    requires { QueueInRange (ring stamps.now registers.now values.now head count) }
    ensures { result ≡ apply_all (waiting (ring stamps.now registers.now values.now head count)) voice }
{
    let mut v = voice;
    for i in 0..count {
        let at = (head + i) % 256;
        v = v.apply_register(registers[at], values[at]);
    }
    v
}
