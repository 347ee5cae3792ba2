// What the calls that read registers answer of a lent record's parts: `ok` is the test of the record. 01, "Registers and ports".
#![tactic(auto)]

ghost use Rattle.std.specs.Prelude.{◌≡◌};
ghost use Rattle.steps_registers.specs.RegisterSteps.{bit1_clear, dump_said, padded, port_said, register_said};

use answers::{Byte, Bytes};

#[tactic(auto, unfolding(crate::specs::RegisterSteps::register_said))]
pub fn read_register(ok: bool, bytes: [u8; 14], register: u8) -> Byte
    ensures { result ≡ register_said ok bytes register }
{
    if !ok {
        return Byte {
            no: refusals::OUT_OF_RANGE,
            value: 0,
        };
    }
    if register >= registers::REGISTERS {
        return Byte {
            no: refusals::ACCEPTED,
            value: 0,
        };
    }
    let at = register as usize;
    Byte {
        no: refusals::ACCEPTED,
        value: bytes[at],
    }
}

#[tactic(auto, unfolding(crate::specs::RegisterSteps::dump_said))]
pub fn dump_registers(ok: bool, bytes: [u8; 14]) -> Bytes
    ensures { result ≡ dump_said ok bytes }
{
    if !ok {
        return Bytes {
            no: refusals::OUT_OF_RANGE,
            bytes: [0; 16],
        };
    }
    let all = padded(bytes);
    Bytes {
        no: refusals::ACCEPTED,
        bytes: all,
    }
}

#[tactic(auto, unfolding(crate::specs::RegisterSteps::port_said))]
pub fn read_port(ok: bool, bytes: [u8; 14], selected: u8, port: u8) -> Byte
    ensures { result ≡ port_said ok bytes selected port }
{
    if !ok {
        return Byte {
            no: refusals::OUT_OF_RANGE,
            value: 0,
        };
    }
    if bit_1_clear(port) {
        if selected < registers::REGISTERS {
            let at = selected as usize;
            return Byte {
                no: refusals::ACCEPTED,
                value: bytes[at],
            };
        }
    }
    Byte {
        no: refusals::ACCEPTED,
        value: 0xff,
    }
}

// Port bit 1 clear selects, or reads; set, it writes.
pub fn bit_1_clear(port: u8) -> bool
    ensures { result ≡ bit1_clear port }
{
    port / 2 % 2 == 0
}

// The fourteen bytes, and two zeros.
#[tactic(auto, unfolding(crate::specs::RegisterSteps::padded))]
fn padded(r: [u8; 14]) -> [u8; 16]
    ensures { result ≡ padded r }
{
    [
        r[0], r[1], r[2], r[3], r[4], r[5], r[6], r[7], r[8], r[9], r[10], r[11], r[12], r[13], 0,
        0,
    ]
}
