// All generators together. 01, "Power-on and reset" and "One tick, one word"; the crate's generators.rs.
#![tactic(auto)]

ghost use Rattle.std.specs.Prelude.{◌≡◌};
ghost use Rattle.generators.specs.Reset.{generators_reset, generators_new};
ghost use Rattle.generators.specs.Generators.{tick, edges_of, tone_at, put_tone, tones_set, tones_released};

use envelope::Envelope;
use noise::Noise;
use tone::{BITS_A, BITS_B, BITS_C, Tone};

#[repr(C)]
#[derive(Clone, Copy)]
pub struct Generators {
    pub a: Tone,
    pub b: Tone,
    pub c: Tone,
    pub noise: Noise,
    pub envelope: Envelope,
}

impl Generators {
    pub fn new() -> Generators
        ensures { result ≡ generators_new }
    {
        let tone = Tone::reset(0);
        let noise = Noise {
            counter: 0,
            period: 0,
            register: 1,
            output: 0,
            half: false,
        };
        let envelope = Envelope {
            counter: 0,
            period: 0,
            position: 0,
            offset: 0,
        };
        let blank = Generators {
            a: tone,
            b: tone,
            c: tone,
            noise,
            envelope,
        };
        blank.reset()
    }

    pub fn reset(self) -> Generators
        ensures { result ≡ generators_reset self }
    {
        let edges = power_on::power_on_edges();
        let a = Tone::reset(edges & BITS_A);
        let b = Tone::reset(edges & BITS_B);
        let c = Tone::reset(edges & BITS_C);
        let noise = self.noise.reset();
        let envelope = self.envelope.reset();
        Generators {
            a,
            b,
            c,
            noise,
            envelope,
        }
    }

    // Channel 0 is A, 1 is B, 2 is C; for any other nothing changes.
    pub fn set_tone_period(self, channel: usize, period: u16, irq: bool) -> Generators
        ensures { result ≡ tones_set channel period irq self }
    {
        self.put(channel, self.at(channel).set_period(period, irq))
    }

    pub fn apply_pending_resets(self) -> Generators
        ensures { result ≡ tones_released self }
    {
        let mut next = self;
        let a = self.a.apply_pending_reset(BITS_A);
        let b = self.b.apply_pending_reset(BITS_B);
        let c = self.c.apply_pending_reset(BITS_C);
        next.a = a;
        next.b = b;
        next.c = c;
        next
    }

    pub fn tick(self) -> Generators
        ensures { result ≡ tick self }
    {
        let a = self.a.tick(BITS_A);
        let b = self.b.tick(BITS_B);
        let c = self.c.tick(BITS_C);
        let noise = self.noise.tick();
        let envelope = self.envelope.tick();
        Generators {
            a,
            b,
            c,
            noise,
            envelope,
        }
    }

    // The edges of the three tones, side by side.
    pub fn edges(self) -> u32
        ensures { result ≡ edges_of self }
    {
        self.a.edges | self.b.edges | self.c.edges
    }

    fn at(self, channel: usize) -> Tone
        ensures { result ≡ tone_at channel self }
    {
        if channel == 0 {
            self.a
        } else if channel == 1 {
            self.b
        } else {
            self.c
        }
    }

    fn put(self, channel: usize, tone: Tone) -> Generators
        ensures { result ≡ put_tone channel tone self }
    {
        let mut next = self;
        if channel == 0 {
            next.a = tone;
        } else if channel == 1 {
            next.b = tone;
        } else if channel == 2 {
            next.c = tone;
        }
        next
    }
}
