// What a channel gives, and what it keeps. 01, "One tick, one word"; the crate's mixer.rs.
#![tactic(auto)]

ghost use Rattle.std.specs.Prelude.{◌≡◌, ◌<◌};
ghost use Rattle.channel.specs.Channel.{heard, sounded, channel_reset, with_mute, with_drum, quiet};

// Of the shape of an `Option`, but 01 asks for it by name: "enum with Off and Sample(f32), matched when a channel's output is worked out".
#[derive(Clone, Copy)]
pub enum Drum {
    Off,
    Sample(f32),
}

#[derive(Clone, Copy)]
pub struct Channel {
    pub muted: bool,
    pub drum: Drum,
    pub output: f32,
    pub amplitude: f32,
}

// A channel's part of a word, and the channel after it.
#[derive(Clone, Copy)]
pub struct Heard {
    pub out: u16,
    pub channel: Channel,
}

impl Channel {
    pub fn new() -> Channel
        ensures { result ≡ quiet }
    {
        let drum = Drum::Off;
        Channel {
            muted: false,
            drum,
            output: 0.0,
            amplitude: 0.0,
        }
    }

    pub fn with_mute(self, muted: bool) -> Channel
        ensures { result ≡ with_mute muted self }
    {
        let mut next = self;
        next.muted = muted;
        next
    }

    pub fn with_drum(self, drum: Drum) -> Channel
        ensures { result ≡ with_drum drum self }
    {
        Channel {
            muted: self.muted,
            drum,
            output: self.output,
            amplitude: self.amplitude,
        }
    }

    // The mute and the last amplitude stay.
    pub fn reset(self) -> Channel
        ensures { result ≡ channel_reset self }
    {
        let drum = Drum::Off;
        Channel {
            muted: self.muted,
            drum,
            output: 0.0,
            amplitude: self.amplitude,
        }
    }

    // `gate` holds the channel's five bits at the bottom.
    // Marked: a word, and what a block keeps, each call it three times; as a plain call it cost a word by itself a sixth more instructions.
    #[inline(always)]
    pub fn sound(self, variant: u8, volume: u8, half: bool, envelope: u8, gate: u32) -> Heard
        requires envelope_bound { envelope < 32 }
        ensures { result ≡ sounded variant self volume half envelope gate }
    {
        let ungated = levels::level_used(variant, volume, envelope);
        let gated = levels::gated_level(ungated, gate);
        self.compute_output(gated, ungated, half)
    }

    // `gated` and `ungated` are level indices.
    pub fn compute_output(self, gated: u8, ungated: u8, half: bool) -> Heard
        requires gated_bound { (gated < 32) × (ungated < 32) }
        ensures { result ≡ heard self gated ungated half }
    {
        let drum = self.drum;
        if self.muted {
            let channel = Channel {
                muted: true,
                drum,
                output: 0.0,
                amplitude: 0.0,
            };
            return Heard { out: 0, channel };
        }
        match drum {
            Drum::Sample(s) => {
                let out = drums::drum_out(s);
                let channel = Channel {
                    muted: false,
                    drum,
                    output: (out as f32 / 10922.0) * 2.0 - 1.0,
                    amplitude: 1.0,
                };
                Heard { out, channel }
            }
            Drum::Off => {
                let out = levels::loudness(gated, half);
                let amplitude = levels::loudness(ungated, half) as f32 / 10922.0;
                let output = if ungated == 0 {
                    0.0
                } else if gated == ungated {
                    amplitude
                } else {
                    -amplitude
                };
                let channel = Channel {
                    muted: false,
                    drum,
                    output,
                    amplitude,
                };
                Heard { out, channel }
            }
        }
    }
}
