// Words one after the other, with no write between them. 01, "One tick, one word".
#![tactic(auto)]

ghost use Rattle.std.specs.Prelude.{◌≡◌, true, ◌+◌, ◌*◌, ◌-◌, ◌^◌, ◌≤◌, ◌<◌, length};
ghost use Rattle.envelope_wave.specs.Wave.{wave_of};
ghost use Rattle.level_scale.specs.Scale.{scale_of};
ghost use Rattle.chip.specs.Range.{CoreInRange};
ghost use Rattle.clocking_word.specs.Word.{offset_in};
ghost use Rattle.clocking_run.specs.Run.{goes_on, Runs};

use chip::Core;
use envelope_wave::Wave;
use generators::Generators;
use level_scale::Scale;

// What words leave of the chip, and where they stop.
#[derive(Clone, Copy)]
pub struct Run {
    pub generators: Generators,
    pub accumulator: u32,
    pub start: u64,
    pub gate: u32,
    pub ticks: u64,
    pub next: usize,
}

// One word, and more until the buffer is full or the next one's end reaches `due`. What the registers set stays as it is, so a word is its
// ticks and its sum; what the channels keep is the caller's to work out, from the last gate.
pub fn run_words(
    core: Core,
    due: u64,
    wave: Wave,
    scale: Scale,
    out: &mut [u16],
    first: usize,
) -> Run
    requires core_in_range { CoreInRange core }
    requires wave_value { wave ≡ wave_of (offset_in core) }
    requires scale_value { scale ≡ scale_of core.variant }
    requires first_in_bounds { (first < length out.old) × (length out.old ≤ 65536) }
    requires cycles_bound { core.start + (length out.old - first) * core.clocks.cycles < 2 ^ 64 }
    ensures { Runs core due first out.old out.new result }
{
    let clocks = core.clocks;
    let gates = core.voice.gates;
    let sources = scale.sources(clocking_word::volumes_of(core.voice));
    let mut generators = core.voice.generators;
    let mut accumulator = core.accumulator;
    let mut start = core.start;
    let mut gate: u32 = 0;
    let mut ticks: u64 = 0;
    let mut i = first;
    let mut more = true;
    // no `for`: the first word is filled unasked, and only then is it known whether there is one more
    while more {
        let ran = clocking_ticks::run_ticks(
            generators,
            gates,
            accumulator,
            clocks.rate,
            clocks.internal,
        );
        generators = ran.generators;
        gate = ran.gate;
        accumulator = ran.accumulator;
        ticks = ticks + ran.ticks as u64;
        start = start + clocks.cycles;
        let level = generators.envelope.level_in(wave);
        out[i] = word_sum::word(
            core.channels,
            sources,
            clocking_word::halves_of(generators),
            scale.used(level),
            gate,
        );
        i = i + 1;
        more = goes_on(i < out.len(), due, start, clocks.cycles);
    }
    Run {
        generators,
        accumulator,
        start,
        gate,
        ticks,
        next: i,
    }
}

fn goes_on(room: bool, due: u64, start: u64, cycles: u64) -> bool
    requires { room ≡ true → start + cycles < 2 ^ 64 }
    ensures { result ≡ goes_on room due (start + cycles) }
{
    if room { due > start + cycles } else { false }
}
