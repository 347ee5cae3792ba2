// Three channels by their number. 01, "Numbers a call can answer" and "Power-on and reset"; the crate's mixer.rs.
#![tactic(auto)]

ghost use Rattle.std.specs.Prelude.{◌≡◌};
ghost use Rattle.three_channels.specs.Channels.{channel_at, put_channel, set_mute, is_muted, set_drum, channels_reset, all_quiet};

use channel::{Channel, Drum};

#[derive(Clone, Copy)]
pub struct Channels {
    pub a: Channel,
    pub b: Channel,
    pub c: Channel,
}

impl Channels {
    pub fn new() -> Channels
        ensures { result ≡ all_quiet }
    {
        let a = Channel::new();
        let b = Channel::new();
        let c = Channel::new();
        Channels { a, b, c }
    }

    pub fn reset(self) -> Channels
        ensures { result ≡ channels_reset self }
    {
        let a = self.a.reset();
        let b = self.b.reset();
        let c = self.c.reset();
        Channels { a, b, c }
    }

    // For channel 3 and above nothing changes: the chip refuses it before.
    pub fn set_mute(self, channel: usize, muted: bool) -> Channels
        ensures { result ≡ set_mute channel muted self }
    {
        self.put(channel, self.at(channel).with_mute(muted))
    }

    pub fn is_muted(self, channel: usize) -> bool
        ensures { result ≡ is_muted channel self }
    {
        if channel < 3 {
            self.at(channel).muted
        } else {
            false
        }
    }

    // As `set_mute`.
    pub fn set_drum_override(self, channel: usize, drum: Drum) -> Channels
        ensures { result ≡ set_drum channel drum self }
    {
        self.put(channel, self.at(channel).with_drum(drum))
    }

    fn at(self, channel: usize) -> Channel
        ensures { result ≡ channel_at channel self }
    {
        if channel == 0 {
            self.a
        } else if channel == 1 {
            self.b
        } else {
            self.c
        }
    }

    fn put(self, channel: usize, new: Channel) -> Channels
        ensures { result ≡ put_channel channel new self }
    {
        let mut next = self;
        if channel == 0 {
            next.a = new;
        } else if channel == 1 {
            next.b = new;
        } else if channel == 2 {
            next.c = new;
        }
        next
    }
}
