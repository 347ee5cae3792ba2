// What the calls on stamps change of a lent record, stepped by value: `ok` is the test of the record. 01, "Registers and ports".
#![tactic(auto)]

ghost use Rattle.std.specs.Prelude.{◌≡◌};
ghost use Rattle.steps_cycles.specs.CycleSteps.{both_set, count_said, cycle_said, stamp_set};

use answers::{Count, Cycle};

// The stamp to store, and the call's number.
#[derive(Clone, Copy)]
pub struct Stamped {
    pub stamp: u64,
    pub no: u8,
}

// The stamp and the next word's start to store, and the call's number.
#[derive(Clone, Copy)]
pub struct Synced {
    pub stamp: u64,
    pub start: u64,
    pub no: u8,
}

#[tactic(auto, unfolding(crate::specs::CycleSteps::stamp_set))]
pub fn set_cpu_cycle(ok: bool, stamp: u64, cycle: u64) -> Stamped
    ensures { result ≡ stamp_set ok stamp cycle }
{
    if !ok {
        return Stamped {
            stamp,
            no: refusals::OUT_OF_RANGE,
        };
    }
    Stamped {
        stamp: cycle,
        no: refusals::ACCEPTED,
    }
}

#[tactic(auto, unfolding(crate::specs::CycleSteps::both_set))]
pub fn sync_sample_cycle(ok: bool, stamp: u64, start: u64, cycle: u64) -> Synced
    ensures { result ≡ both_set ok stamp start cycle }
{
    if !ok {
        return Synced {
            stamp,
            start,
            no: refusals::OUT_OF_RANGE,
        };
    }
    Synced {
        stamp: cycle,
        start: cycle,
        no: refusals::ACCEPTED,
    }
}

#[tactic(auto, unfolding(crate::specs::CycleSteps::cycle_said))]
pub fn cpu_cycle(ok: bool, stamp: u64) -> Cycle
    ensures { result ≡ cycle_said ok stamp }
{
    if !ok {
        return Cycle {
            no: refusals::OUT_OF_RANGE,
            cycle: 0,
        };
    }
    Cycle {
        no: refusals::ACCEPTED,
        cycle: stamp,
    }
}

#[tactic(auto, unfolding(crate::specs::CycleSteps::count_said))]
pub fn pending_write_count(ok: bool, count: usize) -> Count
    ensures { result ≡ count_said ok count }
{
    if !ok {
        return Count {
            no: refusals::OUT_OF_RANGE,
            count: 0,
        };
    }
    Count {
        no: refusals::ACCEPTED,
        count,
    }
}
