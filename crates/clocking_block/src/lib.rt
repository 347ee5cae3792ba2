// A block of words. 01, "One tick, one word".
#![tactic(auto)]

ghost use Rattle.std.specs.Prelude.{◌≡◌, ◌+◌, ◌*◌, ◌^◌, ◌≤◌, ◌<◌, length};
ghost use Rattle.queue.specs.Waiting.{ring, QueueInRange};
ghost use Rattle.chip.specs.Range.{CoreInRange};
ghost use Rattle.clocking_block.specs.Block.{block_of, chip_with, next_due, words_of};

use chip::Core;

// What a block leaves; the ring's slots are as they were.
#[derive(Clone, Copy)]
pub struct Rendered {
    pub core: Core,
    pub head: usize,
    pub count: usize,
    pub ticks: u64,
}

// Fills the whole buffer. The caller has seen that the last word ends in time. Between two words with writes due the words run on their own, and
// what each channel keeps is that of the last word: it is worked out once. The ring is lent where it lies.
pub fn render<'t, 'o>(
    stamps: &'t [u64; 256],
    registers: &'t [u8; 256],
    values: &'t [u8; 256],
    out: &'o mut [u16],
    before: Core,
    place: usize,
    waiting: usize,
) -> Rendered
    requires core_in_range { CoreInRange before }
    requires queue_in_range { QueueInRange (ring stamps.now registers.now values.now place waiting) }
    requires out_len_bound { length out.old ≤ 65536 }
    requires cycles_bound { before.start + length out.old * before.clocks.cycles < 2 ^ 64 }
    ensures value { result ≡ block_of (length out.old)
        (chip_with before (ring stamps.now registers.now values.now place waiting)) }
    ensures out_after { out.new ≡ words_of (length out.old)
        (chip_with before (ring stamps.now registers.now values.now place waiting)) }
{
    let scale = level_scale::scale_of(before.variant);
    let mut core = before;
    let mut wave = envelope_wave::wave_of(core.voice.generators.envelope.offset);
    let mut head = place;
    let mut count = waiting;
    let mut gate: u32 = 0;
    let mut ticks: u64 = 0;
    let mut i: usize = 0;
    // no `for`: each turn goes on by as many words as its run filled
    while i < out.len() {
        let end = core.start + core.clocks.cycles;
        let drained = queue_drain::drain(core.voice, stamps, registers, values, head, count, end);
        let mut voice = drained.voice;
        core.voice = voice;
        head = drained.head;
        count = drained.count;
        wave = envelope_wave::wave_after(wave, voice.generators.envelope.offset);
        let due = next_due(stamps, head, count);
        let run = clocking_run::run_words(core, due, wave, scale, out, i);
        let generators = run.generators;
        voice.generators = generators;
        core.voice = voice;
        core.accumulator = run.accumulator;
        core.start = run.start;
        gate = run.gate;
        ticks = ticks + run.ticks;
        i = run.next;
    }
    if i > 0 {
        let channels = clocking_word::kept_of_word(core.variant, core.channels, core.voice, gate);
        core.channels = channels;
    }
    Rendered {
        core,
        head,
        count,
        ticks,
    }
}

// The stamp of the first waiting write; where none waits, no word's end is past it.
fn next_due(stamps: &[u64; 256], head: usize, count: usize) -> u64
    requires { head < 256 }
    ensures { result ≡ next_due stamps.now head count }
{
    if count == 0 {
        0xffff_ffff_ffff_ffff
    } else {
        stamps[head]
    }
}
