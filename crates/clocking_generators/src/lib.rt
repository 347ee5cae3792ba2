// The generators while the ticks of a word run: counters of 32 bits, and the edges of the three tones in one word, so that all of it
// stays in the machine's registers. It means generators (`shown`), and its tick is theirs (`shown-tick` of proofs/Shown.antt).
#![tactic(auto)]

ghost use Rattle.std.specs.Prelude.{◌≡◌};
ghost use Rattle.generators.specs.Range.{GeneratorsInRange};
ghost use Rattle.clocking_generators.specs.Turning.{Held, tones_turned, envelope_turned, noise_turned, shown, turned, turning_of};

use generators::Generators;
use tone::{BITS_A, BITS_B, BITS_C};

// `rest` are the generators that it began with: their periods, pending flips and shape hold.
#[derive(Clone, Copy)]
pub struct Turning {
    pub rest: Generators,
    pub a: u32,
    pub b: u32,
    pub c: u32,
    pub edges: u32,
    pub envelope: u32,
    pub position: i32,
    pub noise: u32,
    pub register: u32,
    pub output: u32,
    pub half: bool,
}

impl Turning {
    pub fn of(generators: Generators) -> Turning
        requires { GeneratorsInRange generators }
        ensures { (result ≡ turning_of generators) × Held result }
    {
        Turning {
            rest: generators,
            a: generators.a.counter as u32,
            b: generators.b.counter as u32,
            c: generators.c.counter as u32,
            edges: generators.edges(),
            envelope: generators.envelope.counter as u32,
            position: generators.envelope.position,
            noise: generators.noise.counter as u32,
            register: generators.noise.register,
            output: generators.noise.output,
            half: generators.noise.half,
        }
    }

    pub fn tick(self) -> Turning
        requires { Held self }
        ensures { (result ≡ turned self) × Held result }
    {
        self.turn_tones().turn_envelope().turn_noise()
    }

    pub fn generators(self) -> Generators
        requires { Held self }
        ensures { result ≡ shown self }
    {
        let rest = self.rest;
        let mut a = rest.a;
        a.counter = self.a as u16;
        a.edges = self.edges & BITS_A;
        let mut b = rest.b;
        b.counter = self.b as u16;
        b.edges = self.edges & BITS_B;
        let mut c = rest.c;
        c.counter = self.c as u16;
        c.edges = self.edges & BITS_C;
        let mut noise = rest.noise;
        noise.counter = self.noise as u16;
        noise.register = self.register;
        noise.output = self.output;
        noise.half = self.half;
        let mut envelope = rest.envelope;
        envelope.counter = self.envelope as u16;
        envelope.position = self.position;
        Generators {
            a,
            b,
            c,
            noise,
            envelope,
        }
    }

    fn turn_tones(self) -> Turning
        requires { Held self }
        ensures turned { result ≡ tones_turned self }
        ensures held { Held result }
    {
        let a = tone::tone_step(self.a, self.rest.a.period, self.edges, BITS_A);
        let b = tone::tone_step(self.b, self.rest.b.period, a.edges, BITS_B);
        let c = tone::tone_step(self.c, self.rest.c.period, b.edges, BITS_C);
        let mut next = self;
        next.a = a.counter;
        next.b = b.counter;
        next.c = c.counter;
        next.edges = c.edges;
        next
    }

    fn turn_envelope(self) -> Turning
        requires { Held self }
        ensures turned { result ≡ envelope_turned self }
        ensures held { Held result }
    {
        let mut next = self;
        let count = self.envelope + 1;
        let period = self.rest.envelope.period;
        if count < period as u32 {
            next.envelope = count;
        } else {
            let position = envelope::next_position(self.position);
            next.envelope = 0;
            next.position = position;
        }
        next
    }

    fn turn_noise(self) -> Turning
        requires { Held self }
        ensures turned { result ≡ noise_turned self }
        ensures held { Held result }
    {
        let mut next = self;
        if self.half {
            next.half = false;
            return next;
        }
        next.half = true;
        let count = self.noise + 1;
        if count < noise::at_least_one(self.rest.noise.period) {
            next.noise = count;
            return next;
        }
        let register = noise::noise_step(self.register);
        let output = noise::noise_output(self.register);
        next.noise = 0;
        next.register = register;
        next.output = output;
        next
    }
}
