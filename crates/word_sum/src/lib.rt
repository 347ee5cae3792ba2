// The word of three channels, without what each keeps of it: the sum needs no f32. 01, "One tick, one word"; the crate's mixer.rs.
#![tactic(auto)]

ghost use Rattle.std.specs.Prelude.{◌≡◌, ◌≤◌, ◌<◌};
ghost use Rattle.levels.specs.Levels.{gated_level, loudness_of};
ghost use Rattle.level_scale.specs.Scale.{picked};
ghost use Rattle.word_sum.specs.Sum.{AreSources, part_by, sum_by};

use channel::{Channel, Drum};
use three_channels::Channels;

// The word of `mixer::mix`, where the channels' levels come from `sources` and `used` is what is used of the envelope's (`sum-mixed`).
pub fn word(channels: Channels, sources: [u8; 3], halves: [bool; 3], used: u8, gate: u32) -> u16
    requires are_sources { AreSources sources }
    requires used_bound { used < 32 }
    ensures { result ≡ sum_by channels sources halves used gate }
{
    let a = part(channels.a, sources[0], halves[0], used, gate);
    let b = part(channels.b, sources[1], halves[1], used, gate >> 5);
    let c = part(channels.c, sources[2], halves[2], used, gate >> 10);
    a + b + c
}

// What a channel gives; `gate` holds its five bits at the bottom.
pub fn part(channel: Channel, source: u8, half: bool, used: u8, gate: u32) -> u16
    requires source_bound { (source ≤ 32) × (used < 32) }
    ensures { result ≡ part_by channel source half used gate }
{
    let drum = channel.drum;
    if channel.muted {
        return 0;
    }
    match drum {
        Drum::Sample(s) => drums::drum_out(s),
        Drum::Off => level_part(source, half, used, gate),
    }
}

fn level_part(source: u8, half: bool, used: u8, gate: u32) -> u16
    requires source_bound { (source ≤ 32) × (used < 32) }
    ensures { result ≡ loudness_of half (gated_level (picked source used) gate) }
{
    let ungated = level_scale::picked(source, used);
    let gated = levels::gated_level(ungated, gate);
    levels::loudness(gated, half)
}
