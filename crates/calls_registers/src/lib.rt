// Register writes and reads. 01, "Registers and ports".
#![tactic(auto)]

ghost use Rattle.std.specs.Prelude.{◌≡◌};
ghost use Rattle.calls_registers.specs.Stored.{dump_registers, loaded_registers, read_register, wrote_register};

use answers::{Applied, Byte, Bytes, Written};
use chip::Chip;

pub fn write_register(chip: Chip, register: u8, value: u8) -> Written
    ensures { result ≡ wrote_register register value chip }
{
    let ok = chip::in_range(chip);
    let r = steps_voice::write_register(ok, chip.core.voice, register, value);
    let after = chip_parts::with_voice(chip, r.voice);
    let answer = r.answer;
    Written {
        chip: after,
        answer,
    }
}

pub fn read_register(chip: Chip, register: u8) -> Byte
    ensures { result ≡ read_register register chip }
{
    let ok = chip::in_range(chip);
    let voice = chip.core.voice;
    let bytes = voice.registers;
    steps_registers::read_register(ok, bytes, register)
}

// Bytes 0 to 13 in order; 14 and 15 are not written.
pub fn load_registers(chip: Chip, bytes: [u8; 16]) -> Applied
    ensures { result ≡ loaded_registers bytes chip }
{
    let ok = chip::in_range(chip);
    let r = steps_voice::load_registers(ok, chip.core.voice, bytes);
    let after = chip_parts::with_voice(chip, r.voice);
    let answer = r.answer;
    Applied {
        chip: after,
        answer,
    }
}

pub fn dump_registers(chip: Chip) -> Bytes
    ensures { result ≡ dump_registers chip }
{
    let ok = chip::in_range(chip);
    let voice = chip.core.voice;
    let bytes = voice.registers;
    steps_registers::dump_registers(ok, bytes)
}
