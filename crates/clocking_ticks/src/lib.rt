// The ticks of a word. 01, "One tick, one word"; the crate's chip.rs.
#![tactic(auto)]

ghost use Rattle.std.specs.Prelude.{◌≡◌};
ghost use Rattle.generators.specs.Range.{GeneratorsInRange};
ghost use Rattle.clocking_ticks.specs.Ticks.{ticked};
ghost use Rattle.clocks.specs.Range.{ClocksRun};

use clocking_generators::Turning;
use gates::Gates;
use generators::Generators;

// What the ticks of a word come to.
#[derive(Clone, Copy)]
pub struct Ran {
    pub generators: Generators,
    pub gate: u32,
    pub accumulator: u32,
    pub ticks: u32,
}

#[derive(Clone, Copy)]
struct Taken {
    gate: u32,
    accumulator: u32,
}

// 01: "the ticking stops at the first tick that brings the accumulator to the internal clock"
pub fn run_ticks(
    generators: Generators,
    gates: Gates,
    accumulator: u32,
    rate: u32,
    internal: u32,
) -> Ran
    requires clocks_run { ClocksRun accumulator rate internal }
    requires generators_in_range { GeneratorsInRange generators }
    ensures { result ≡ ticked gates rate internal generators accumulator }
{
    let mut turning = Turning::of(generators);
    // what the accumulator has left to the internal clock
    let mut gap = internal - accumulator;
    let mut gathered: u32 = 0;
    let mut n: u32 = 0;
    // 01 asks for this form: "a loop whose break yields the gathered gate and the remaining accumulator"
    let taken = loop {
        turning = turning.tick();
        gathered = gathered | gates.gate(turning.edges, turning.output);
        n = n + 1;
        if gap <= rate {
            break Taken {
                gate: gathered,
                accumulator: rate - gap,
            };
        }
        gap = gap - rate;
    };
    let after = turning.generators();
    Ran {
        generators: after,
        gate: taken.gate,
        accumulator: taken.accumulator,
        ticks: n,
    }
}
