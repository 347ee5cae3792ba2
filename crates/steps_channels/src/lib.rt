// What the calls on mutes, drums and outputs change and answer of a lent record's channels, stepped by value: `ok` is the test of the record.
// 01, "Numbers a call can answer" and "One tick, one word".
#![tactic(auto)]

ghost use Rattle.std.specs.Prelude.{◌≡◌};
ghost use Rattle.steps_channels.specs.ChannelSteps.{at_channel, channel_number, drums_set, mutes_set, mute_said, one_set, outputs_said, put_one};

use answers::{Flag, Outputs};
use channel::Drum;

// A value for each channel.
#[derive(Clone, Copy)]
pub struct Three<T> {
    pub a: T,
    pub b: T,
    pub c: T,
}

// The three values to store, and the call's number.
#[derive(Clone, Copy)]
pub struct ThreeSet<T> {
    pub values: Three<T>,
    pub no: u8,
}

impl<T: Copy> Three<T> {
    // Channel 0 is A, 1 is B; every other number stands for C.
    #[tactic(auto, unfolding(crate::specs::ChannelSteps::put_one))]
    fn put(self, channel: usize, value: T) -> Three<T>
        ensures { result ≡ put_one channel value self }
    {
        let Three { a, b, c } = self;
        match channel {
            0 => Three { a: value, b, c },
            1 => Three { a, b: value, c },
            _ => Three { a, b, c: value },
        }
    }

    #[tactic(auto, unfolding(crate::specs::ChannelSteps::at_channel))]
    fn at(self, channel: usize) -> T
        ensures { result ≡ at_channel channel self }
    {
        match channel {
            0 => self.a,
            1 => self.b,
            _ => self.c,
        }
    }
}

pub fn set_channel_mute(ok: bool, mutes: Three<bool>, channel: usize, muted: bool) -> ThreeSet<bool>
    ensures { result ≡ mutes_set ok mutes channel muted }
{
    one_set(ok, mutes, channel, muted)
}

pub fn set_drum_sample_override(
    ok: bool,
    drums: Three<Drum>,
    channel: usize,
    drum: Drum,
) -> ThreeSet<Drum>
    ensures { result ≡ drums_set ok drums channel drum }
{
    one_set(ok, drums, channel, drum)
}

#[tactic(auto, unfolding(crate::specs::ChannelSteps::mute_said))]
pub fn is_channel_muted(ok: bool, mutes: Three<bool>, channel: usize) -> Flag
    ensures { result ≡ mute_said ok mutes channel }
{
    if !ok {
        return Flag {
            no: refusals::OUT_OF_RANGE,
            yes: false,
        };
    }
    Flag {
        no: refusals::ACCEPTED,
        yes: channel < 3 && mutes.at(channel),
    }
}

#[tactic(auto, unfolding(crate::specs::ChannelSteps::outputs_said))]
pub fn get_channel_outputs(ok: bool, outputs: Three<f32>) -> Outputs
    ensures { result ≡ outputs_said ok outputs }
{
    if !ok {
        return Outputs {
            no: refusals::OUT_OF_RANGE,
            a: 0.0,
            b: 0.0,
            c: 0.0,
        };
    }
    Outputs {
        no: refusals::ACCEPTED,
        a: outputs.a,
        b: outputs.b,
        c: outputs.c,
    }
}

// A refused call sets none.
#[tactic(auto, unfolding(crate::specs::ChannelSteps::one_set))]
fn one_set<T: Copy>(ok: bool, held: Three<T>, channel: usize, value: T) -> ThreeSet<T>
    ensures { result ≡ one_set ok held channel value }
{
    let no = channel_number(ok, channel);
    if no != refusals::ACCEPTED {
        return ThreeSet { values: held, no };
    }
    ThreeSet {
        values: held.put(channel, value),
        no,
    }
}

// Mute or drum for channel 3 or above: 7, after 22.
#[tactic(auto, unfolding(crate::specs::ChannelSteps::channel_number))]
fn channel_number(ok: bool, channel: usize) -> u8
    ensures { result ≡ channel_number ok channel }
{
    if !ok {
        return refusals::OUT_OF_RANGE;
    }
    if channel >= 3 {
        return refusals::NO_SUCH_CHANNEL;
    }
    refusals::ACCEPTED
}
