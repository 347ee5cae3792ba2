// How records are shown. A tone: counter, edges, whether a flip waits. A noise: counter, half-tick, register, output. An envelope:
// counter, period, whether the position is -64, offset. What is heard: the output, and the channel's last output and amplitude; a
// channel: its mute, whether it has a drum, and the two.
ghost use Rattle.std.specs.Prelude.{◌<◌};

use channel::{Channel, Drum, Heard};
use script_print::Bits;
use std::io;

pub fn edges(rt: &impl Print, t: tone::Tone) -> io::Result<()> {
    let counter = t.counter;
    let edges = t.edges;
    print!(rt; " {counter}/{edges:x}")
}

pub fn tone(rt: &impl Print, t: tone::Tone) -> io::Result<()> {
    edges(rt, t)?;
    let pending = t.pending as u8;
    print!(rt; " {pending}")
}

pub fn noise(rt: &impl Print, n: noise::Noise) -> io::Result<()> {
    let counter = n.counter;
    let half = n.half as u8;
    let register = n.register;
    let output = n.output;
    print!(rt; " {counter} {half} {register:x} {output:x}")
}

pub fn envelope(rt: &impl Print, e: envelope::Envelope) -> io::Result<()> {
    let counter = e.counter;
    let period = e.period;
    let start = (e.position == -64) as u8;
    let offset = e.offset;
    print!(rt; " {counter} {period} {start} {offset}")
}

pub fn gates(rt: &impl Print, g: gates::Gates) -> io::Result<()> {
    let tone = g.tone;
    let noise = g.noise;
    print!(rt; " {tone:x}/{noise:x}")
}

pub fn channel(rt: &impl Print, c: Channel) -> io::Result<()> {
    let muted = c.muted as u8;
    let drum = matches!(c.drum, Drum::Sample(_)) as u8;
    let output = Bits(c.output);
    let amplitude = Bits(c.amplitude);
    print!(rt; " {muted} {drum} {output} {amplitude}")
}

pub fn heard(rt: &impl Print, h: Heard) -> io::Result<()> {
    let c = h.channel;
    let out = h.out;
    let output = Bits(c.output);
    let amplitude = Bits(c.amplitude);
    print!(rt; " {out} {output} {amplitude}")
}

pub fn sound(c: Channel, gated: u8, ungated: u8, half: bool) -> Heard
    requires { (gated < 32) × (ungated < 32) }
{
    c.compute_output(gated, ungated, half)
}

// A level open and shut, whole and halved.
pub fn level(rt: &impl Print, index: u8) -> io::Result<()>
    requires { index < 32 }
{
    heard(rt, sound(Channel::new(), index, index, false))?;
    heard(rt, sound(Channel::new(), 0, index, false))?;
    heard(rt, sound(Channel::new(), index, index, true))?;
    heard(rt, sound(Channel::new(), 0, index, true))
}
