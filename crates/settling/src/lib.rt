// What many writes set, set once after the last. 01, "Registers and ports".
#![tactic(auto)]

ghost use Rattle.std.specs.Prelude.{cond, ◌≡◌, ◌+◌, ◌*◌, ◌^◌, ◌<◌};
ghost use Rattle.stored_bytes.specs.Marks.{unwritten};
ghost use Rattle.settling.specs.Settling.{settings_of, pitch_after, gates_after, envelope_period_after, shape_after, settled_of, generators_with, with_settings};

use envelope::Envelope;
use gates::Gates;
use generators::Generators;
use noise::Noise;
use registers::Voice;
use tone::Tone;

// What register writes set of a tone.
#[derive(Clone, Copy)]
pub struct Pitch {
    pub period: u16,
    pub pending: bool,
}

// What register writes set beside the stored bytes. All else of a voice stays, so it need not leave the machine's registers.
#[derive(Clone, Copy)]
pub struct Settings {
    pub a: Pitch,
    pub b: Pitch,
    pub c: Pitch,
    pub noise: u8,
    pub envelope: Envelope,
    pub gates: Gates,
}

pub fn settings_of(generators: Generators, gates: Gates) -> Settings
    ensures { result ≡ settings_of generators gates }
{
    let a = Pitch {
        period: generators.a.period,
        pending: generators.a.pending,
    };
    let b = Pitch {
        period: generators.b.period,
        pending: generators.b.pending,
    };
    let c = Pitch {
        period: generators.c.period,
        pending: generators.c.pending,
    };
    let envelope = generators.envelope;
    Settings {
        a,
        b,
        c,
        noise: generators.noise.period,
        envelope,
        gates,
    }
}

// The marked registers set what they set, from the bytes that the last write left. A mark is the bit of the register's number.
pub fn settled(bytes: [u8; 14], marks: u32, before: Settings) -> Settings
    ensures { result ≡ settled_of bytes marks before }
{
    // volumes alone, or nothing
    if marks & 0x38ff == 0 {
        return before;
    }
    let a = pitch_after(marks, 0x3, bytes[0], bytes[1], before.a);
    let b = pitch_after(marks, 0xc, bytes[2], bytes[3], before.b);
    let c = pitch_after(marks, 0x30, bytes[4], bytes[5], before.c);
    let noise = noise_after(marks, bytes[6], before.noise);
    let gates = gates_after(marks, bytes[7], before.gates);
    let ticking = envelope_period_after(marks, bytes[11], bytes[12], before.envelope);
    let envelope = shape_after(marks, bytes[13], ticking);
    Settings {
        a,
        b,
        c,
        noise,
        envelope,
        gates,
    }
}

// One register alone sets what it sets, from bytes that have its own.
pub fn settled_one(bytes: [u8; 14], register: u8, before: Settings) -> Settings
    requires { register < 14 }
    ensures { result ≡ settled_of bytes (2 ^ register) before }
{
    let mut after = before;
    match register {
        0 | 1 => {
            let period = registers::joined(bytes[0], bytes[1]);
            after.a.period = period;
            after
        }
        2 | 3 => {
            let period = registers::joined(bytes[2], bytes[3]);
            after.b.period = period;
            after
        }
        4 | 5 => {
            let period = registers::joined(bytes[4], bytes[5]);
            after.c.period = period;
            after
        }
        6 => {
            let noise = bytes[6];
            after.noise = noise;
            after
        }
        7 => {
            let gates = Gates::from_register(bytes[7]);
            after.gates = gates;
            after
        }
        11 | 12 => {
            let period = registers::joined(bytes[11], bytes[12]);
            after.envelope.period = period;
            after
        }
        13 => {
            let envelope = before.envelope.set_shape(bytes[13]);
            after.envelope = envelope;
            after
        }
        _ => after,
    }
}

fn pitch_after(marks: u32, both: u32, low: u8, high: u8, before: Pitch) -> Pitch
    ensures { result ≡ pitch_after (unwritten both marks) (low + 256 * high) before }
{
    Pitch {
        period: period_after(marks, both, low, high, before.period),
        pending: before.pending,
    }
}

// `both` has the marks of the period's two registers.
fn period_after(marks: u32, both: u32, low: u8, high: u8, before: u16) -> u16
    ensures { result ≡ cond (unwritten both marks) before (low + 256 * high) }
{
    if marks & both == 0 {
        return before;
    }
    registers::joined(low, high)
}

fn noise_after(marks: u32, byte: u8, before: u8) -> u8
    ensures { result ≡ cond (unwritten (2 ^ 6) marks) before byte }
{
    if marks & 0x40 == 0 { before } else { byte }
}

fn gates_after(marks: u32, byte: u8, before: Gates) -> Gates
    ensures { result ≡ gates_after (unwritten (2 ^ 7) marks) byte before }
{
    if marks & 0x80 == 0 {
        return before;
    }
    Gates::from_register(byte)
}

fn envelope_period_after(marks: u32, low: u8, high: u8, before: Envelope) -> Envelope
    ensures { result ≡ envelope_period_after (unwritten (2 ^ 11 + 2 ^ 12) marks) (low + 256 * high) before }
{
    Envelope {
        counter: before.counter,
        period: period_after(marks, 0x1800, low, high, before.period),
        position: before.position,
        offset: before.offset,
    }
}

fn shape_after(marks: u32, byte: u8, before: Envelope) -> Envelope
    ensures { result ≡ shape_after (unwritten (2 ^ 13) marks) byte before }
{
    if marks & 0x2000 == 0 {
        return before;
    }
    before.set_shape(byte)
}

// The voice with these bytes and settings. Each struct is made anew, field by field: a copy that is changed goes through memory.
pub fn with_settings(bytes: [u8; 14], settings: Settings, voice: Voice) -> Voice
    ensures { result ≡ with_settings bytes settings voice }
{
    let generators = generators_with(settings, voice.generators);
    let gates = settings.gates;
    Voice {
        registers: bytes,
        generators,
        gates,
        irq: voice.irq,
    }
}

fn generators_with(settings: Settings, before: Generators) -> Generators
    ensures { result ≡ generators_with settings before }
{
    let a = Tone {
        counter: before.a.counter,
        period: settings.a.period,
        edges: before.a.edges,
        pending: settings.a.pending,
    };
    let b = Tone {
        counter: before.b.counter,
        period: settings.b.period,
        edges: before.b.edges,
        pending: settings.b.pending,
    };
    let c = Tone {
        counter: before.c.counter,
        period: settings.c.period,
        edges: before.c.edges,
        pending: settings.c.pending,
    };
    let noise = Noise {
        counter: before.noise.counter,
        period: settings.noise,
        register: before.noise.register,
        output: before.noise.output,
        half: before.noise.half,
    };
    let envelope = settings.envelope;
    Generators {
        a,
        b,
        c,
        noise,
        envelope,
    }
}
