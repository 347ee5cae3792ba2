// One word by itself, on the parts of a record that it reads and changes: `ok` is the test of the record. 01, "One tick, one
// word"; 02, request 03.
#![tactic(auto)]

ghost use Rattle.std.specs.Prelude.{◌≡◌, true};
ghost use Rattle.queue.specs.Waiting.{ring};
ghost use Rattle.steps_words.specs.WordSteps.{chip_at, Playable, unplayed, word_step};

use answers::Sample;
use chip::{Clocks, Core};
use registers::Voice;
use three_channels::Channels;

// What a word changes, to store, and the call's answer; the ring's slots are as they were.
#[derive(Clone, Copy)]
pub struct WordStep {
    pub voice: Voice,
    pub channels: Channels,
    pub accumulator: u32,
    pub start: u64,
    pub head: usize,
    pub count: usize,
    pub answer: Sample,
}

// The ring is lent where it lies. The test was of a record with these parts, and with others that say nothing to a word.
pub fn compute_next_sample<'t>(
    stamps: &'t [u64; 256],
    registers: &'t [u8; 256],
    values: &'t [u8; 256],
    ok: bool,
    clocks: Clocks,
    variant: u8,
    voice: Voice,
    channels: Channels,
    accumulator: u32,
    start: u64,
    head: usize,
    count: usize,
) -> WordStep
    requires { ok ≡ true → Playable (chip_at clocks variant voice channels accumulator start (ring stamps.now registers.now values.now head count)) }
    ensures { result ≡ word_step ok (chip_at clocks variant voice channels accumulator start (ring stamps.now registers.now values.now head count)) }
{
    if !ok {
        return unplayed(
            voice,
            channels,
            accumulator,
            start,
            head,
            count,
            refusals::OUT_OF_RANGE,
        );
    }
    if let Err(why) = block_limits::accept_block(start, clocks.cycles, 1) {
        return unplayed(
            voice,
            channels,
            accumulator,
            start,
            head,
            count,
            why.number(),
        );
    }
    let bytes = voice.registers;
    let core = Core {
        clocks,
        voice,
        channels,
        selected: 0,
        variant,
        accumulator,
        stamp: 0,
        start,
    };
    let worded = clocking_word::word(core, stamps, registers, values, head, count);
    let after = worded.core;
    let told = queue_effects::effects(registers, values, head, count - worded.count, bytes);
    let answer = Sample {
        no: refusals::ACCEPTED,
        word: worded.word,
        ticks: worded.ticks as u64,
        changed: told.changed,
        restarted: told.restarted,
    };
    let voice = after.voice;
    let channels = after.channels;
    WordStep {
        voice,
        channels,
        accumulator: after.accumulator,
        start: after.start,
        head: worded.head,
        count: worded.count,
        answer,
    }
}

// Nothing changes: word 0, 0 ticks, 0 and 0.
fn unplayed(
    voice: Voice,
    channels: Channels,
    accumulator: u32,
    start: u64,
    head: usize,
    count: usize,
    number: u8,
) -> WordStep
    ensures { result ≡ unplayed voice channels accumulator start head count number }
{
    let answer = Sample {
        no: number,
        word: 0,
        ticks: 0,
        changed: 0,
        restarted: 0,
    };
    WordStep {
        voice,
        channels,
        accumulator,
        start,
        head,
        count,
        answer,
    }
}
