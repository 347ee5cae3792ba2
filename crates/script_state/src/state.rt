// The whole state of a chip on one line. oracle/README.md, "What is printed".
use crate::parts::Shown;
use chip::{Chip, Core};
use registers::Voice;
use script_print::Bytes;
use std::fmt;

impl fmt::Display for Shown<&Chip> {
    fn fmt<W: fmt::Write>(&self, f: &mut fmt::Formatter<W>) -> fmt::Result {
        let core = &self.0.core;
        write_voice(f, &core.voice, core.selected)?;
        let channels = core.channels;
        let a = Shown(channels.a);
        let b = Shown(channels.b);
        let c = Shown(channels.c);
        write!(f, " a={a} b={b} c={c}")?;
        let waiting = self.0.queue.count;
        write!(f, " waiting={waiting}")?;
        write_clocks(f, core)
    }
}

fn write_voice<W: fmt::Write>(
    f: &mut fmt::Formatter<W>,
    voice: &Voice,
    selected: u8,
) -> fmt::Result {
    let stored = Bytes(&voice.registers);
    write!(f, "regs={stored} select={selected}")?;
    let generators = voice.generators;
    let a = Shown(generators.a);
    let b = Shown(generators.b);
    let c = Shown(generators.c);
    write!(f, " A={a} B={b} C={c}")?;
    let noise = Shown(generators.noise);
    let envelope = Shown(generators.envelope);
    let gates = Shown(voice.gates);
    write!(f, " noise={noise} envelope={envelope} gates={gates}")
}

fn write_clocks<W: fmt::Write>(f: &mut fmt::Formatter<W>, core: &Core) -> fmt::Result {
    let clocks = Shown(core.clocks);
    let accumulator = core.accumulator;
    let stamp = core.stamp;
    let start = core.start;
    let irq = core.voice.irq as u8;
    let variant = core.variant;
    write!(
        f,
        " clocks={clocks} accumulator={accumulator} stamp={stamp} start={start} irq={irq} variant={variant}"
    )
}
