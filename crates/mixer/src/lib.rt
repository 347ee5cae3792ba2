// The word of three channels. 01, "One tick, one word"; the crate's mixer.rs.
#![tactic(auto)]

ghost use Rattle.std.specs.Prelude.{◌≡◌, ◌<◌};
ghost use Rattle.mixer.specs.Mix.{mixed};

use three_channels::Channels;

#[derive(Clone, Copy)]
pub struct Mixed {
    pub word: u16,
    pub channels: Channels,
}

// R8 to R10, whether each is halved, the envelope's level, and the gate of all ticks.
// Marked, since with two callers it is not inlined of itself, and a word by itself then takes a quarter more instructions.
#[inline(always)]
pub fn mix(
    variant: u8,
    channels: Channels,
    volumes: [u8; 3],
    halves: [bool; 3],
    envelope: u8,
    gate: u32,
) -> Mixed
    requires envelope_bound { envelope < 32 }
    ensures { result ≡ mixed variant channels volumes halves envelope gate }
{
    let a = channels
        .a
        .sound(variant, volumes[0], halves[0], envelope, gate);
    let b = channels
        .b
        .sound(variant, volumes[1], halves[1], envelope, gate >> 5);
    let c = channels
        .c
        .sound(variant, volumes[2], halves[2], envelope, gate >> 10);
    let word = a.out + b.out + c.out;
    let a = a.channel;
    let b = b.channel;
    let c = c.channel;
    let channels = Channels { a, b, c };
    Mixed { word, channels }
}

// What the channels keep of a word whose value is known: a block's last, by its gate.
pub fn kept(
    variant: u8,
    channels: Channels,
    volumes: [u8; 3],
    halves: [bool; 3],
    envelope: u8,
    last: u32,
) -> Channels
    requires envelope_bound { envelope < 32 }
    ensures { result ≡ (mixed variant channels volumes halves envelope last).channels }
{
    mix(variant, channels, volumes, halves, envelope, last).channels
}
