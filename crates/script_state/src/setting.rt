// One field of a record, set to a value, in range or not.
use chip::Chip;
use generators::Generators;
use queue::Queue;
use script_calls::Setting;
use tone::Tone;

pub fn with_setting(mut chip: Chip, setting: Setting) -> Chip {
    match setting {
        Setting::Master(n) => chip.core.clocks.master = n,
        Setting::Rate(n) => chip.core.clocks.rate = n,
        Setting::Internal(n) => chip.core.clocks.internal = n,
        Setting::Cycles(n) => chip.core.clocks.cycles = n,
        Setting::Variant(n) => chip.core.variant = n,
        Setting::Accumulator(n) => chip.core.accumulator = n,
        Setting::Stamp(n) => chip.core.stamp = n,
        Setting::Start(n) => chip.core.start = n,
        Setting::Select(n) => chip.core.selected = n,
        Setting::Register(place, n) => {
            if let Some(byte) = chip.core.voice.registers.get_mut(place) {
                *byte = n;
            }
        }
        Setting::GatesTone(n) => chip.core.voice.gates.tone = n,
        Setting::GatesNoise(n) => chip.core.voice.gates.noise = n,
        Setting::Head(_) | Setting::Count(_) | Setting::WaitingRegister(_) => set_queue(
            &mut chip.queue,
            setting,
        ),
        _ => set_generators(&mut chip.core.voice.generators, setting),
    }
    chip
}

fn set_queue(queue: &mut Queue, setting: Setting) {
    match setting {
        Setting::Head(n) => queue.head = n,
        Setting::Count(n) => queue.count = n,
        // of the last waiting write
        Setting::WaitingRegister(n) if queue.count > 0 => {
            let last = (queue.head % 256 + (queue.count - 1) % 256) % 256;
            queue.registers[last] = n;
        }
        _ => (),
    }
}

fn set_generators(generators: &mut Generators, setting: Setting) {
    match setting {
        Setting::NoiseCounter(n) => generators.noise.counter = n,
        Setting::NoisePeriod(n) => generators.noise.period = n,
        Setting::NoiseRegister(n) => generators.noise.register = n,
        Setting::NoiseOutput(n) => generators.noise.output = n,
        Setting::EnvelopeCounter(n) => generators.envelope.counter = n,
        Setting::EnvelopePeriod(n) => generators.envelope.period = n,
        Setting::EnvelopePosition(n) => generators.envelope.position = n,
        Setting::EnvelopeOffset(n) => generators.envelope.offset = n,
        Setting::Counter(channel, n) => tone(generators, channel).counter = n,
        Setting::Period(channel, n) => tone(generators, channel).period = n,
        Setting::Edges(channel, n) => tone(generators, channel).edges = n,
        _ => (),
    }
}

fn tone(generators: &mut Generators, channel: usize) -> &mut Tone {
    match channel {
        0 => &mut generators.a,
        1 => &mut generators.b,
        _ => &mut generators.c,
    }
}
