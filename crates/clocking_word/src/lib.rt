// One word. 01, "One tick, one word"; `compute_next_sample` of the crate's chip.rs.
#![tactic(auto)]

ghost use Rattle.std.specs.Prelude.{◌≡◌, ◌+◌, ◌^◌, ◌<◌};
ghost use Rattle.envelope.specs.Range.{EnvelopeInRange};
ghost use Rattle.queue.specs.Waiting.{ring, QueueInRange};
ghost use Rattle.chip.specs.Range.{CoreInRange};
ghost use Rattle.clocking_word.specs.Word.{volumes, halves, mixed_of, word_of, small_of};

use chip::Core;
use generators::Generators;
use mixer::Mixed;
use registers::Voice;
use three_channels::Channels;

// A word, and the small state after it; the ring's slots are as they were.
#[derive(Clone, Copy)]
pub struct Worded {
    pub core: Core,
    pub head: usize,
    pub count: usize,
    pub word: u16,
    pub ticks: u32,
}

// One word by itself. The ring is lent: a word does not copy it.
pub fn word<'t>(
    core: Core,
    stamps: &'t [u64; 256],
    registers: &'t [u8; 256],
    values: &'t [u8; 256],
    head: usize,
    count: usize,
) -> Worded
    requires core_in_range { CoreInRange core }
    requires queue_in_range { QueueInRange (ring stamps.now registers.now values.now head count) }
    requires cycles_bound { core.start + core.clocks.cycles < 2 ^ 64 }
    ensures { result ≡ small_of (word_of core (ring stamps.now registers.now values.now head count)) }
{
    let end = core.start + core.clocks.cycles;
    let drained = queue_drain::drain_one(core.voice, stamps, registers, values, head, count, end);
    let mut voice = drained.voice;
    let ran = clocking_ticks::run_ticks(
        voice.generators,
        voice.gates,
        core.accumulator,
        core.clocks.rate,
        core.clocks.internal,
    );
    let generators = ran.generators;
    voice.generators = generators;
    let mixed = mix_word(core.variant, core.channels, voice, ran.gate);
    let channels = mixed.channels;
    let mut next = core;
    next.voice = voice;
    next.channels = channels;
    next.accumulator = ran.accumulator;
    next.start = end;
    Worded {
        core: next,
        head: drained.head,
        count: drained.count,
        word: mixed.word,
        ticks: ran.ticks,
    }
}

// The level is looked up once, from the gate of all ticks. Marked as `mixer::mix` is.
#[inline(always)]
fn mix_word(variant: u8, channels: Channels, voice: Voice, gate: u32) -> Mixed
    requires envelope_in_range { EnvelopeInRange voice.generators.envelope }
    ensures { result ≡ mixed_of variant channels voice gate }
{
    let level = voice.generators.envelope.level();
    let volumes = volumes_of(voice);
    let halves = halves_of(voice.generators);
    mixer::mix(variant, channels, volumes, halves, level, gate)
}

// What the channels keep of it, where the word's value is known.
pub fn kept_of_word(variant: u8, channels: Channels, voice: Voice, gate: u32) -> Channels
    requires envelope_in_range { EnvelopeInRange voice.generators.envelope }
    ensures { result ≡ (mixed_of variant channels voice gate).channels }
{
    let level = voice.generators.envelope.level();
    let volumes = volumes_of(voice);
    let halves = halves_of(voice.generators);
    mixer::kept(variant, channels, volumes, halves, level, gate)
}

// R8 to R10.
pub fn volumes_of(voice: Voice) -> [u8; 3]
    ensures { result ≡ volumes voice }
{
    [voice.registers[8], voice.registers[9], voice.registers[10]]
}

// Whether each channel is halved.
pub fn halves_of(generators: Generators) -> [bool; 3]
    ensures { result ≡ halves generators }
{
    [
        generators.a.is_half_amplitude(),
        generators.b.is_half_amplitude(),
        generators.c.is_half_amplitude(),
    ]
}
