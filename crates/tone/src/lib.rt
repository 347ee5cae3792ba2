// The tone of one channel. 01, "Registers and ports" and "One tick, one word"; the crate's generators.rs.
#![tactic(auto)]

ghost use Rattle.std.specs.Prelude.{◌≡◌, ◌≤◌};
ghost use Rattle.tone.specs.Tone.{tone_step, tone_tick, tone_reset, tone_set, tone_released, is_halved};

// `edges` are five equal bits at the channel's place; `pending` marks a flip that waits for the IRQ's end.
#[repr(C)]
#[derive(Clone, Copy)]
pub struct Tone {
    pub counter: u16,
    pub period: u16,
    pub edges: u32,
    pub pending: bool,
}

// What one tick changes of a tone; a tick's counter is of 32 bits, so that it stays in a register of the machine.
#[derive(Clone, Copy)]
pub struct Stepped {
    pub counter: u32,
    pub edges: u32,
}

// The five edge bits of each channel.
pub const BITS_A: u32 = 0x1f;

pub const BITS_B: u32 = 0x3e0;

pub const BITS_C: u32 = 0x7c00;

impl Tone {
    // 01: "mark a pending flip if the period is now at most 1 and the IRQ flag is on"
    pub fn set_period(self, period: u16, irq: bool) -> Tone
        ensures { result ≡ tone_set period irq self }
    {
        let mut next = self;
        next.period = period;
        if period <= 1 {
            if irq {
                next.pending = true;
            }
        }
        next
    }

    pub fn is_half_amplitude(self) -> bool
        ensures { result ≡ is_halved self }
    {
        self.period <= 1
    }

    // `bits` are the channel's five, as they are for `tick`.
    pub fn apply_pending_reset(self, bits: u32) -> Tone
        ensures { result ≡ tone_released bits self }
    {
        let mut next = self;
        if self.pending {
            next.edges = self.edges ^ bits;
            next.counter = 0;
            next.pending = false;
        }
        next
    }

    pub fn tick(self, bits: u32) -> Tone
        ensures { result ≡ tone_tick bits self }
    {
        let step = tone_step(self.counter as u32, self.period, self.edges, bits);
        let mut next = self;
        next.counter = step.counter as u16;
        next.edges = step.edges;
        next
    }

    pub fn reset(edges: u32) -> Tone
        ensures { result ≡ tone_reset edges }
    {
        Tone {
            counter: 0,
            period: 0,
            edges,
            pending: false,
        }
    }
}

// `Tone::tick` and the ticks of a word (crates/clocking_generators) step by this.
pub fn tone_step(counter: u32, period: u16, edges: u32, bits: u32) -> Stepped
    requires { counter ≤ 65535 }
    ensures { (result ≡ tone_step bits period counter edges) × (result.counter ≤ 65535) }
{
    let count = counter + 1;
    if count < period as u32 {
        Stepped {
            counter: count,
            edges,
        }
    } else {
        Stepped {
            counter: 0,
            edges: edges ^ bits,
        }
    }
}
