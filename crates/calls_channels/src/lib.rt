// Mutes, drums and last outputs. 01, "Numbers a call can answer" and "One tick, one word".
#![tactic(auto)]

ghost use Rattle.std.specs.Prelude.{◌≡◌};
ghost use Rattle.calls_channels.specs.ChannelCalls.{get_channel_outputs, is_channel_muted, mutes_of, set_channel_mute, set_drum_sample_override};

use answers::{Answered, Flag, Outputs};
use channel::Drum;
use chip::Chip;
use steps_channels::Three;
use three_channels::Channels;

pub fn set_channel_mute(chip: Chip, channel: usize, muted: bool) -> Answered
    ensures { result ≡ set_channel_mute channel muted chip }
{
    let ok = chip::in_range(chip);
    let s = chip.core.channels;
    let r = steps_channels::set_channel_mute(ok, mutes(s), channel, muted);
    let a = s.a.with_mute(r.values.a);
    let b = s.b.with_mute(r.values.b);
    let c = s.c.with_mute(r.values.c);
    let after = chip_parts::with_channels(chip, Channels { a, b, c });
    Answered {
        chip: after,
        no: r.no,
    }
}

pub fn is_channel_muted(chip: Chip, channel: usize) -> Flag
    ensures { result ≡ is_channel_muted channel chip }
{
    let ok = chip::in_range(chip);
    steps_channels::is_channel_muted(ok, mutes(chip.core.channels), channel)
}

pub fn set_drum_sample_override(chip: Chip, channel: usize, drum: Drum) -> Answered
    ensures { result ≡ set_drum_sample_override channel drum chip }
{
    let ok = chip::in_range(chip);
    let s = chip.core.channels;
    let drums = Three {
        a: s.a.drum,
        b: s.b.drum,
        c: s.c.drum,
    };
    let r = steps_channels::set_drum_sample_override(ok, drums, channel, drum);
    let a = s.a.with_drum(r.values.a);
    let b = s.b.with_drum(r.values.b);
    let c = s.c.with_drum(r.values.c);
    let after = chip_parts::with_channels(chip, Channels { a, b, c });
    Answered {
        chip: after,
        no: r.no,
    }
}

pub fn get_channel_outputs(chip: Chip) -> Outputs
    ensures { result ≡ get_channel_outputs chip }
{
    let ok = chip::in_range(chip);
    let s = chip.core.channels;
    let outputs = Three {
        a: s.a.output,
        b: s.b.output,
        c: s.c.output,
    };
    steps_channels::get_channel_outputs(ok, outputs)
}

fn mutes(s: Channels) -> Three<bool>
    ensures { result ≡ mutes_of s }
{
    Three {
        a: s.a.muted,
        b: s.b.muted,
        c: s.c.muted,
    }
}
