// Stamps, the next word's start, and the queue. 01, "Registers and ports".
#![tactic(auto)]

ghost use Rattle.std.specs.Prelude.{◌≡◌};
ghost use Rattle.calls_cycles.specs.Cycles.{cpu_cycle, flushed_pending_writes, pending_write_count, set_cpu_cycle, sync_sample_cycle};

use answers::{Answered, Applied, Count, Cycle};
use chip::Chip;

// The stamp of later writes.
pub fn set_cpu_cycle(chip: Chip, cycle: u64) -> Answered
    ensures { result ≡ set_cpu_cycle cycle chip }
{
    let ok = chip::in_range(chip);
    let r = steps_cycles::set_cpu_cycle(ok, chip.core.stamp, cycle);
    let mut after = chip;
    after.core.stamp = r.stamp;
    Answered {
        chip: after,
        no: r.no,
    }
}

pub fn cpu_cycle(chip: Chip) -> Cycle
    ensures { result ≡ cpu_cycle chip }
{
    let ok = chip::in_range(chip);
    steps_cycles::cpu_cycle(ok, chip.core.stamp)
}

// The stamp, and the next word's start.
pub fn sync_sample_cycle(chip: Chip, cycle: u64) -> Answered
    ensures { result ≡ sync_sample_cycle cycle chip }
{
    let ok = chip::in_range(chip);
    let r = steps_cycles::sync_sample_cycle(ok, chip.core.stamp, chip.core.start, cycle);
    let mut after = chip;
    after.core.stamp = r.stamp;
    after.core.start = r.start;
    Answered {
        chip: after,
        no: r.no,
    }
}

pub fn flush_pending_writes(chip: Chip) -> Applied
    ensures { result ≡ flushed_pending_writes chip }
{
    let ok = chip::in_range(chip);
    let ring = chip.queue;
    let mut core = chip.core;
    let r = steps_queue::flush_pending_writes(
        &ring.stamps,
        &ring.registers,
        &ring.values,
        ok,
        core.voice,
        ring.head,
        ring.count,
    );
    let voice = r.voice;
    core.voice = voice;
    let mut queue = ring;
    queue.head = r.head;
    queue.count = r.count;
    let after = Chip { core, queue };
    let answer = r.answer;
    Applied {
        chip: after,
        answer,
    }
}

pub fn pending_write_count(chip: Chip) -> Count
    ensures { result ≡ pending_write_count chip }
{
    let ok = chip::in_range(chip);
    steps_cycles::pending_write_count(ok, chip.queue.count)
}
