// Levels and drums as a channel sounds them, and channels from call to call: each step is shown.
use crate::shown;
use channel::{Channel, Drum};
use mixer::Mixed;
use std::io;
use three_channels::Channels;

pub fn levels(rt: &impl Print) -> io::Result<()> {
    for index in 0..32 {
        print!(rt; "\nlevel {index}:")?;
        shown::level(rt, index)?;
    }
    print!(rt; "\n16 of 31:")?;
    shown::heard(rt, shown::sound(Channel::new(), 16, 31, false))?;
    print!(rt; " 1 of 17, halved:")?;
    shown::heard(rt, shown::sound(Channel::new(), 1, 17, true))
}

// Channel A, what is heard of it at level 31, and the channel after it.
pub fn channel(rt: &impl Print) -> io::Result<()> {
    let mut channel = Channel::new();
    for i in 0..6 {
        channel = channel_after(channel, i);
        print!(rt; "\nchannel {i}:")?;
        shown::channel(rt, channel)?;
        let heard = shown::sound(channel, 31, 31, false);
        shown::heard(rt, heard)?;
        channel = heard.channel;
    }
    Ok(())
}

fn channel_after(c: Channel, i: u8) -> Channel {
    match i {
        0 => c,
        1 => c.with_mute(true),
        2 => c.with_drum(Drum::Sample(1.0)),
        3 => c.with_mute(false),
        4 => c.reset(),
        _ => c.with_drum(Drum::Sample(-0.0)),
    }
}

// Whole numbers and parts; zeros and subnormals; ends of the range and not numbers; the first sample that gives
// 1, 2, 3, 1000, 2730, 2731, 5461, 8191, 8192, 10921 or 10922, and the one before it; samples that scale to
// about a half more than a whole number; negative and large ones.
#[rattlefmt::skip]
const SAMPLES: [u32; 64] = [
    0x3f80_0000, 0x4100_0000, 0x4080_0000, 0x3f00_0000, 0x3e80_0000, 0x4000_0000, 0x4040_0000, 0x3eaa_aaab,
    0x0000_0000, 0x8000_0000, 0x0000_0001, 0x8000_0001, 0x007f_ffff, 0x807f_ffff, 0x0080_0000, 0x8080_0000,
    0x7f80_0000, 0xff80_0000, 0x7f7f_ffff, 0xff7f_ffff, 0x7fc0_0000, 0xffc0_0000, 0x7f80_0001, 0xffff_ffff,
    0x39c0_02ff, 0x39c0_0300, 0x3a40_02ff, 0x3a40_0300, 0x3a90_023f, 0x3a90_0240, 0x3ebb_82ed, 0x3ebb_82ee,
    0x3f7f_f3ff, 0x3f7f_f400, 0x3f80_05ff, 0x3f80_0600, 0x3fff_ffff, 0x4000_0001, 0x403f_fcff, 0x403f_fd00,
    0x4040_02ff, 0x4040_0300, 0x407f_f9ff, 0x407f_fa00, 0x407f_ffff, 0x4080_0001, 0x407f_fffe, 0x3f7f_ffff,
    0x3940_0300, 0x3940_02ff, 0x3940_0301, 0x3a10_0240, 0x3a10_023f, 0x3fff_fa00, 0x407f_fd00, 0x403f_ffff,
    0xbf80_0000, 0xc080_0000, 0xb9c0_0300, 0x4b00_0000, 0x4f80_0000, 0x5f00_0000, 0x7e80_0000, 0x3727_c5ac,
];

pub fn drums(rt: &impl Print) -> io::Result<()> {
    for bits in SAMPLES {
        let sample = script_words::float(bits);
        print!(rt; "\ndrum {bits:08x}")?;
        let channel = Channel::new().with_drum(Drum::Sample(sample));
        shown::heard(rt, shown::sound(channel, 0, 31, true))?;
    }
    Ok(())
}

// Words, and what each leaves of the channels.
pub fn words(rt: &impl Print) -> io::Result<()> {
    let mut channels = Channels::new();
    for i in 0..16 {
        let mixed = mixed(words_after(channels, i), i);
        let word = mixed.word;
        print!(rt; "\nword {i}: {word}")?;
        channels = mixed.channels;
        shown::channel(rt, channels.a)?;
        shown::channel(rt, channels.b)?;
        shown::channel(rt, channels.c)?;
        print!(rt; " muted:")?;
        for channel in 0..4 {
            let muted = channels.is_muted(channel) as u8;
            print!(rt; " {muted}")?;
        }
    }
    Ok(())
}

fn words_after(s: Channels, i: u8) -> Channels {
    match i {
        4 => s.set_mute(1, true),
        // no such channel
        5 => s.set_mute(3, true),
        6 => s.set_mute(2, true),
        7 => s.set_mute(1, false),
        8 => s.set_drum_override(0, Drum::Sample(2.5)),
        9 => s.set_drum_override(1, Drum::Sample(-1.0)),
        // no such channel
        10 => s.set_drum_override(3, Drum::Sample(4.0)),
        11 => s.set_drum_override(1, Drum::Off),
        12 => s.set_mute(2, false),
        13 => s.set_mute(0, true),
        14 => s.reset(),
        _ => s,
    }
}

fn mixed(s: Channels, i: u8) -> Mixed {
    match i {
        // a fresh chip's, where every period is at most 1
        0 => mix(s, [0, 0, 0], [true, true, true], 0, 0x7fff),
        // the highest word
        1 => mix(s, [16, 16, 16], [false, false, false], 31, 0x7fff),
        // the gate of B
        2 => mix(s, [15, 14, 31], [false, false, false], 22, 0x3e0),
        // every gate shut
        3 => mix(s, [31, 1, 8], [false, true, true], 5, 0),
        _ => mix(s, [15, 15, 15], [false, true, false], 0, 0x7fff),
    }
}

fn mix(s: Channels, volumes: [u8; 3], halves: [bool; 3], envelope: u8, gate: u32) -> Mixed {
    mixer::mix(0, s, volumes, halves, envelope % 32, gate)
}
