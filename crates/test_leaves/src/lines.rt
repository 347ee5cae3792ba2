// Tones, noises and envelopes from tick to tick, and what is set of them.
use crate::shown;
use envelope::Envelope;
use gates::Gates;
use generators::Generators;
use noise::Noise;
use std::io;
use tone::Tone;

pub fn tones(rt: &impl Print) -> io::Result<()> {
    for (period, counter, channel) in [
        (0, 0, 0),
        (1, 0, 1),
        (2, 0, 2),
        (3, 0, 0),
        (4095, 0, 1),
        (4095, 4091, 2),
        (0, 65535, 0),
        (4095, 65535, 1),
        (65535, 65532, 2),
    ] {
        tone(rt, period, counter, channel)?;
    }
    flips(rt)?;
    for period in [0, 1, 2, 4095] {
        set_period(rt, period, false)?;
        set_period(rt, period, true)?;
    }
    print!(rt; "\ntone reset:")?;
    let reset = Tone::reset(0x3e0);
    shown::edges(rt, reset)?;
    let period = reset.period;
    let pending = reset.pending as u8;
    print!(rt; " {period} {pending}")
}

fn tone(rt: &impl Print, period: u16, counter: u16, channel: u8) -> io::Result<()> {
    print!(rt; "\ntone {period} {counter} {channel}:")?;
    let bits = match channel {
        0 => tone::BITS_A,
        1 => tone::BITS_B,
        _ => tone::BITS_C,
    };
    let mut tone = Tone::reset(0).set_period(period, false);
    tone.counter = counter;
    for _ in 0..8 {
        tone = tone.tick(bits);
        shown::edges(rt, tone)?;
    }
    Ok(())
}

// The numbers of the ticks that flip it.
fn flips(rt: &impl Print) -> io::Result<()> {
    print!(rt; "\ntone 4095 flips at:")?;
    let mut tone = Tone::reset(0).set_period(4095, false);
    tone.counter = 0;
    for tick in 1..=8200 {
        let edges = tone.edges;
        tone = tone.tick(tone::BITS_A);
        if tone.edges != edges {
            print!(rt; " {tick}")?;
        }
    }
    Ok(())
}

// A period set, the flip that waits, and its release, twice.
fn set_period(rt: &impl Print, period: u16, irq: bool) -> io::Result<()> {
    let flag = irq as u8;
    print!(rt; "\nperiod {period}: {flag}")?;
    let mut old = Tone::reset(0x3e0).set_period(5, false);
    old.counter = 7;
    let set = old.set_period(period, irq);
    let released = set.apply_pending_reset(tone::BITS_B);
    shown::tone(rt, set)?;
    let half = set.is_half_amplitude() as u8;
    print!(rt; " {half}")?;
    shown::tone(rt, released)?;
    shown::edges(rt, released.apply_pending_reset(tone::BITS_B))
}

pub fn noises(rt: &impl Print) -> io::Result<()> {
    print!(rt; "\nnoise registers:")?;
    let mut noise = noise_with(0, 0, 1);
    for _ in 0..41 {
        let register = noise.register;
        print!(rt; " {register:x}")?;
        noise = noise.tick().tick();
    }
    six_ticks(rt, noise_with(0, 0, 1))?;
    six_ticks(rt, noise_with(1, 0, 1))?;
    six_ticks(rt, noise_with(2, 0, 1))?;
    six_ticks(rt, noise_with(31, 30, 131071))?;
    six_ticks(rt, high(noise_with(31, 65535, 65536)))?;
    six_ticks(rt, noise_with(255, 65535, 2))?;
    for period in [0, 1, 2, 31] {
        steps(rt, period)?;
    }
    print!(rt; "\nnoise reset:")?;
    let reset = high(noise_with(7, 5, 0x12000)).set_period(31).reset();
    shown::noise(rt, reset)?;
    let period = reset.period;
    print!(rt; " {period}")
}

fn noise_with(period: u8, counter: u16, register: u32) -> Noise {
    let mut noise = Generators::new().noise.set_period(period);
    noise.counter = counter;
    noise.register = register;
    noise
}

fn high(mut noise: Noise) -> Noise {
    noise.output = 0xffff_ffff;
    noise.half = true;
    noise
}

fn six_ticks(rt: &impl Print, mut noise: Noise) -> io::Result<()> {
    let period = noise.period;
    for tick in 1..=6 {
        noise = noise.tick();
        print!(rt; "\nnoise {period} {tick}:")?;
        shown::noise(rt, noise)?;
    }
    Ok(())
}

// The numbers of the ticks that step its register.
fn steps(rt: &impl Print, period: u8) -> io::Result<()> {
    print!(rt; "\nnoise steps {period}:")?;
    let mut noise = noise_with(period, 0, 1);
    for tick in 1..=200 {
        let register = noise.register;
        noise = noise.tick();
        if noise.register != register {
            print!(rt; " {tick}")?;
        }
    }
    Ok(())
}

pub fn envelopes(rt: &impl Print) -> io::Result<()> {
    for shape in 0..16 {
        wave(rt, shape)?;
    }
    wave(rt, 24)?;
    print!(rt; "\nshape 8 at 63, then:")?;
    let mut last = envelope_with(1, 0, 8);
    last.position = 63;
    shown_levels(rt, last, 3)?;
    // shape 12 rises, so that each step shows
    for (period, counter) in [
        (0, 0),
        (1, 0),
        (2, 0),
        (3, 0),
        (65535, 65533),
        (65535, 65535),
        (0, 65535),
    ] {
        print!(rt; "\nenvelope {period} {counter}:")?;
        shown_levels(rt, envelope_with(period, counter, 12), 12)?;
    }
    let ticked = envelope_with(7, 6, 15).tick();
    print!(rt; "\nticked:")?;
    shown::envelope(rt, ticked)?;
    print!(rt; "\nperiod set:")?;
    shown::envelope(rt, ticked.set_period(65535))?;
    print!(rt; "\nrestarted:")?;
    shown::envelope(rt, ticked.trigger())?;
    print!(rt; "\nenvelope reset:")?;
    shown::envelope(rt, ticked.reset())
}

fn envelope_with(period: u16, counter: u16, shape: u8) -> Envelope {
    let mut envelope = Generators::new()
        .envelope
        .set_period(period)
        .set_shape(shape);
    envelope.counter = counter;
    envelope
}

// The whole row of a shape, then the levels at 0, 1 and 2.
fn wave(rt: &impl Print, shape: u8) -> io::Result<()> {
    print!(rt; "\nshape {shape}:")?;
    shown_levels(rt, envelope_with(0, 0, shape), 131)
}

fn shown_levels(rt: &impl Print, mut envelope: Envelope, ticks: u8) -> io::Result<()> {
    for _ in 0..ticks {
        let level = level_of(envelope);
        print!(rt; " {level}")?;
        envelope = envelope.tick();
    }
    Ok(())
}

// 99 for an envelope out of range: none is.
fn level_of(e: Envelope) -> u8 {
    if e.position < -64 || e.position > 63 || e.offset % 128 != 0 || e.offset > 1152 {
        return 99;
    }
    e.level()
}

pub fn gates(rt: &impl Print) -> io::Result<()> {
    print!(rt; "\ngates of 0 to 63:")?;
    for register in 0..64 {
        shown::gates(rt, Gates::from_register(register))?;
    }
    for register in [0, 0x07, 0x38, 0x3f, 0x2a, 0x15, 0x3e] {
        print!(rt; "\ngate by {register}:")?;
        gate(rt, Gates::from_register(register))?;
    }
    Ok(())
}

fn gate(rt: &impl Print, gates: Gates) -> io::Result<()> {
    for tones in [0, 0x3ff, 0x7fff] {
        let shut = gates.gate(tones, 0);
        let open = gates.gate(tones, 0xffff_ffff);
        print!(rt; " {shut:x} {open:x}")?;
    }
    Ok(())
}
