// What the state line shows of each part. A flag is 0 or 1.
use channel::{Channel, Drum};
use chip::Clocks;
use envelope::Envelope;
use gates::Gates;
use noise::Noise;
use script_print::Bits;
use std::fmt;
use tone::Tone;

// A part, or a whole chip, as it is printed.
#[derive(Clone, Copy)]
pub struct Shown<T>(pub T);

impl fmt::Display for Shown<Tone> {
    fn fmt<W: fmt::Write>(&self, f: &mut fmt::Formatter<W>) -> fmt::Result {
        let tone = self.0;
        let counter = tone.counter;
        let period = tone.period;
        let edges = tone.edges;
        let pending = tone.pending as u8;
        write!(f, "{counter},{period},{edges},{pending}")
    }
}

impl fmt::Display for Shown<Noise> {
    fn fmt<W: fmt::Write>(&self, f: &mut fmt::Formatter<W>) -> fmt::Result {
        let noise = self.0;
        let counter = noise.counter;
        let period = noise.period;
        let register = noise.register;
        let output = noise.output;
        let half = noise.half as u8;
        write!(f, "{counter},{period},{register},{output},{half}")
    }
}

impl fmt::Display for Shown<Envelope> {
    fn fmt<W: fmt::Write>(&self, f: &mut fmt::Formatter<W>) -> fmt::Result {
        let envelope = self.0;
        let counter = envelope.counter;
        let period = envelope.period;
        let position = envelope.position;
        let offset = envelope.offset;
        write!(f, "{counter},{period},{position},{offset}")
    }
}

impl fmt::Display for Shown<Gates> {
    fn fmt<W: fmt::Write>(&self, f: &mut fmt::Formatter<W>) -> fmt::Result {
        let tone = self.0.tone;
        let noise = self.0.noise;
        write!(f, "{tone},{noise}")
    }
}

impl fmt::Display for Shown<Channel> {
    fn fmt<W: fmt::Write>(&self, f: &mut fmt::Formatter<W>) -> fmt::Result {
        let channel = self.0;
        let muted = channel.muted as u8;
        let drum = Shown(channel.drum);
        let output = Bits(channel.output);
        let amplitude = Bits(channel.amplitude);
        write!(f, "{muted},{drum},{output},{amplitude}")
    }
}

impl fmt::Display for Shown<Drum> {
    fn fmt<W: fmt::Write>(&self, f: &mut fmt::Formatter<W>) -> fmt::Result {
        match self.0 {
            Drum::Off => f.write_str("off"),
            Drum::Sample(x) => fmt::Display::fmt(&Bits(x), f),
        }
    }
}

impl fmt::Display for Shown<Clocks> {
    fn fmt<W: fmt::Write>(&self, f: &mut fmt::Formatter<W>) -> fmt::Result {
        let internal = self.0.internal;
        let rate = self.0.rate;
        let cycles = self.0.cycles;
        write!(f, "{internal},{rate},{cycles}")
    }
}
