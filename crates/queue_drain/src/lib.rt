// What is due of the waiting writes, applied. 01, "One tick, one word".
#![tactic(auto)]

ghost use Rattle.queue.specs.Waiting.{ring, QueueInRange};
ghost use Rattle.queue_drain.specs.Drain.{Drains};
ghost use Rattle.queue_drain.specs.Due.{drained_with, Stores};

use registers::{REGISTERS, Voice};
use settling::Settings;

// What a drain leaves: the ring's slots are as they were.
#[derive(Clone, Copy)]
pub struct Drained {
    pub voice: Voice,
    pub head: usize,
    pub count: usize,
}

// What the due writes leave of a voice, its bytes and settings; and the ring without them.
#[derive(Clone, Copy)]
struct Due {
    bytes: [u8; 14],
    settings: Settings,
    head: usize,
    count: usize,
}

// The stored bytes after the due writes, and a mark for each register written; and the ring without them.
#[derive(Clone, Copy)]
struct Stored {
    bytes: [u8; 14],
    marks: u32,
    head: usize,
    count: usize,
}

// 01: "applied from the front while their stamp is at most that end; the first later one stops it". The ring is lent where it lies:
// no slot is written, and the small state comes back. There is one way out, also where nothing is due: with a second one the generators would
// leave the machine's registers.
pub fn drain<'t>(
    voice: Voice,
    stamps: &'t [u64; 256],
    registers: &'t [u8; 256],
    values: &'t [u8; 256],
    head: usize,
    count: usize,
    end: u64,
) -> Drained
    requires { QueueInRange (ring stamps.now registers.now values.now head count) }
    ensures { Drains end voice (ring stamps.now registers.now values.now head count) result }
{
    let due = due_writes(voice, stamps, registers, values, head, count, end);
    let bytes = due.bytes;
    let settings = due.settings;
    let after = settling::with_settings(bytes, settings, voice);
    Drained {
        voice: after,
        head: due.head,
        count: due.count,
    }
}

// 01: "mark a pending flip if the period is now at most 1 and the IRQ flag is on". So where it is on each write counts by itself.
fn due_writes(
    voice: Voice,
    stamps: &[u64; 256],
    registers: &[u8; 256],
    values: &[u8; 256],
    head: usize,
    count: usize,
    end: u64,
) -> Due
    requires { QueueInRange (ring stamps.now registers.now values.now head count) }
    ensures { Drains end voice (ring stamps.now registers.now values.now head count) (drained_with voice result) }
{
    if voice.irq {
        return one_by_one(voice, stamps, registers, values, head, count, end);
    }
    let bytes = voice.registers;
    let stored = store_due(bytes, stamps, registers, values, head, count, end);
    let before = settling::settings_of(voice.generators, voice.gates);
    let bytes = stored.bytes;
    let settings = settling::settled(bytes, stored.marks, before);
    Due {
        bytes,
        settings,
        head: stored.head,
        count: stored.count,
    }
}

// Each due write stored; what they set is left to do.
fn store_due(
    bytes: [u8; 14],
    stamps: &[u64; 256],
    registers: &[u8; 256],
    values: &[u8; 256],
    head: usize,
    count: usize,
    end: u64,
) -> Stored
    requires { QueueInRange (ring stamps.now registers.now values.now head count) }
    ensures { Stores end bytes (ring stamps.now registers.now values.now head count) result }
{
    let mut kept = bytes;
    let mut marks: u32 = 0;
    for i in 0..count {
        let slot = (head + i) % 256;
        if stamps[slot] > end {
            return Stored {
                bytes: kept,
                marks,
                head: slot,
                count: count - i,
            };
        }
        let register = registers[slot];
        if register < REGISTERS {
            let byte = registers::masked_byte(register, values[slot]);
            let after = stored_bytes::put(kept, register, byte);
            kept = after;
            marks = stored_bytes::mark(marks, register);
        }
    }
    Stored {
        bytes: kept,
        marks,
        head: (head + count) % 256,
        count: 0,
    }
}

fn one_by_one(
    voice: Voice,
    stamps: &[u64; 256],
    registers: &[u8; 256],
    values: &[u8; 256],
    head: usize,
    count: usize,
    end: u64,
) -> Due
    requires { QueueInRange (ring stamps.now registers.now values.now head count) }
    ensures { Drains end voice (ring stamps.now registers.now values.now head count) (drained_with voice result) }
{
    // a copy: what is lent to a call lies in memory, and the voice of a block need not
    let held = voice;
    let drained = drain_due(held, stamps, registers, values, head, count, end);
    let v = drained.voice;
    let bytes = v.registers;
    let settings = settling::settings_of(v.generators, v.gates);
    Due {
        bytes,
        settings,
        head: drained.head,
        count: drained.count,
    }
}

// The same for a word by itself, which is in a hurry where nothing is due.
pub fn drain_one(
    voice: Voice,
    stamps: &[u64; 256],
    registers: &[u8; 256],
    values: &[u8; 256],
    head: usize,
    count: usize,
    end: u64,
) -> Drained
    requires { QueueInRange (ring stamps.now registers.now values.now head count) }
    ensures { Drains end voice (ring stamps.now registers.now values.now head count) result }
{
    if count == 0 {
        return Drained { voice, head, count };
    }
    if stamps[head] > end {
        return Drained { voice, head, count };
    }
    // a copy, as above
    let held = voice;
    drain_due(held, stamps, registers, values, head, count, end)
}

// Each write by itself.
fn drain_due(
    voice: Voice,
    stamps: &[u64; 256],
    registers: &[u8; 256],
    values: &[u8; 256],
    head: usize,
    count: usize,
    end: u64,
) -> Drained
    requires { QueueInRange (ring stamps.now registers.now values.now head count) }
    ensures { Drains end voice (ring stamps.now registers.now values.now head count) result }
{
    let mut v = voice;
    for k in 0..count {
        let at = (head + k) % 256;
        if stamps[at] > end {
            return Drained {
                voice: v,
                head: at,
                count: count - k,
            };
        }
        v = v.apply_register(registers[at], values[at]);
    }
    Drained {
        voice: v,
        head: (head + count) % 256,
        count: 0,
    }
}
