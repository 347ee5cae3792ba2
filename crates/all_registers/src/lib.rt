// All registers at once: new, reset, or loaded. 01, "Power-on and reset" and "Registers and ports"; the crate's chip.rs.
#![tactic(auto)]

ghost use Rattle.std.specs.Prelude.{◌≡◌};
ghost use Rattle.registers.specs.Writes.{loaded};
ghost use Rattle.all_registers.specs.Reset.{voice_reset, voice_new};

use gates::Gates;
use generators::Generators;
use registers::{REGISTERS, Voice};

pub fn new() -> Voice
    ensures { result ≡ voice_new }
{
    let generators = Generators::new();
    let gates = Gates { tone: 0, noise: 0 };
    let blank = Voice {
        registers: [0; 14],
        generators,
        gates,
        irq: false,
    };
    reset(blank)
}

// 01: "registers 0 and then 0x3F to R7"
pub fn reset(voice: Voice) -> Voice
    ensures { result ≡ voice_reset voice }
{
    let generators = voice.generators.reset();
    let gates = Gates { tone: 0, noise: 0 };
    let zeros = Voice {
        registers: [0; 14],
        generators,
        gates,
        irq: false,
    };
    zeros.apply_register(7, 0x3f)
}

// Bytes 0 to 13 in order.
pub fn load_registers(voice: Voice, bytes: [u8; 16]) -> Voice
    ensures { result ≡ loaded bytes voice }
{
    let mut next = voice;
    for register in 0..REGISTERS {
        next = next.apply_register(register, bytes[register as usize]);
    }
    next
}
