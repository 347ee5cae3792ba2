// What a register write does. 01, "Registers and ports"; `apply_register` of the crate's chip.rs.
#![tactic(auto)]

ghost use Rattle.std.specs.Prelude.{◌≡◌, ◌+◌, ◌*◌, ◌<◌};
ghost use Rattle.registers.specs.Registers.{masked, pair_at, tone_period_set, noise_period_set, gates_set, envelope_period_set, shape_set, voice_set, apply_register};

use gates::Gates;
use generators::Generators;

// What a register write reads and changes: the stored bytes, the generators, R7's gates and the IRQ flag.
#[repr(C)]
#[derive(Clone, Copy)]
pub struct Voice {
    pub registers: [u8; 14],
    pub generators: Generators,
    pub gates: Gates,
    pub irq: bool,
}

pub const REGISTERS: u8 = 14;

impl Voice {
    // A write to a register of 14 and above changes nothing.
    pub fn apply_register(self, register: u8, value: u8) -> Voice
        ensures { result ≡ apply_register register value self }
    {
        if register >= REGISTERS {
            return self;
        }
        let at = register as usize;
        let byte = masked_byte(register, value);
        let mut next = self;
        next.registers[at] = byte;
        next.set(register)
    }

    // The stored byte has changed: what it sets follows.
    fn set(self, register: u8) -> Voice
        ensures { result ≡ voice_set register self }
    {
        match register {
            0..=5 => self.set_tone_period(register / 2),
            6 => self.set_noise_period(),
            7 => self.set_gates(),
            11 | 12 => self.set_envelope_period(),
            13 => self.set_shape(),
            _ => self,
        }
    }

    fn set_tone_period(self, channel: u8) -> Voice
        requires { channel < 3 }
        ensures { result ≡ tone_period_set channel self }
    {
        let number = channel as usize;
        let period = self.pair(number * 2);
        let generators = self.generators.set_tone_period(number, period, self.irq);
        let mut next = self;
        next.generators = generators;
        next
    }

    fn set_noise_period(self) -> Voice
        ensures { result ≡ noise_period_set self }
    {
        let mut generators = self.generators;
        let noise = generators.noise.set_period(self.registers[6]);
        generators.noise = noise;
        let mut next = self;
        next.generators = generators;
        next
    }

    fn set_gates(self) -> Voice
        ensures { result ≡ gates_set self }
    {
        let gates = Gates::from_register(self.registers[7]);
        let mut next = self;
        next.gates = gates;
        next
    }

    fn set_envelope_period(self) -> Voice
        ensures { result ≡ envelope_period_set self }
    {
        let period = self.pair(11);
        let mut generators = self.generators;
        let envelope = generators.envelope.set_period(period);
        generators.envelope = envelope;
        let mut next = self;
        next.generators = generators;
        next
    }

    fn set_shape(self) -> Voice
        ensures { result ≡ shape_set self }
    {
        let mut generators = self.generators;
        let envelope = generators.envelope.set_shape(self.registers[13]);
        generators.envelope = envelope;
        let mut next = self;
        next.generators = generators;
        next
    }

    // A period in two registers, the low byte first.
    fn pair(self, low: usize) -> u16
        requires { low < 13 }
        ensures { result ≡ pair_at low self }
    {
        let high = low + 1;
        joined(self.registers[low], self.registers[high])
    }
}

// A period of two bytes.
pub fn joined(low: u8, high: u8) -> u16
    ensures { result ≡ low + 256 * high }
{
    low as u16 + 256 * (high as u16)
}

// What a register stores of a byte.
pub fn masked_byte(register: u8, value: u8) -> u8
    requires { register < 14 }
    ensures { result ≡ masked register value }
{
    let at = register as usize;
    value & tables::register_mask(at)
}
