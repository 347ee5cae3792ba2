// Which channels are let through. 01, "Registers and ports" and "One tick, one word"; the crate's mixer.rs.
#![tactic(auto)]

ghost use Rattle.std.specs.Prelude.{◌≡◌};
ghost use Rattle.gates.specs.Gates.{gates_from, gate_of};

// R7 as masks over fifteen bits, five to a channel; a set bit holds the gate open.
#[repr(C)]
#[derive(Clone, Copy)]
pub struct Gates {
    pub tone: u32,
    pub noise: u32,
}

impl Gates {
    pub fn from_register(value: u8) -> Gates
        ensures { result ≡ gates_from value }
    {
        let tone = tables::gate_mask(value);
        let noise = tables::gate_mask(value >> 3);
        Gates { tone, noise }
    }

    // Fifteen bits in each: the edges of the three tones, and the noise output.
    pub fn gate(self, edges: u32, noise: u32) -> u32
        ensures { result ≡ gate_of self edges noise }
    {
        (edges | self.tone) & (noise | self.noise)
    }
}
