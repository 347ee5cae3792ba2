// What the register writes change of a lent record, stepped by value, and what they report: `ok` is the test of the record. 01, "Registers
// and ports"; 02, request 03.
#![tactic(auto)]

ghost use Rattle.std.specs.Prelude.{false, ◌≡◌};
ghost use Rattle.registers.specs.Registers.{apply_register};
ghost use Rattle.refusals.specs.Numbers.{accepted};
ghost use Rattle.write_effects.specs.Effects.{changed_by, restarted_by};
ghost use Rattle.answers.specs.Reports.{wrote};
ghost use Rattle.steps_voice.specs.VoiceSteps.{port_written, voiced, voiced_all};

use answers::{Counts, Wrote};
use registers::Voice;

// The voice to store, and the call's answer.
#[derive(Clone, Copy)]
pub struct Voiced<A> {
    pub voice: Voice,
    pub answer: A,
}

// The voice and the selection to store, and the call's answer.
#[derive(Clone, Copy)]
pub struct PortWritten {
    pub voice: Voice,
    pub selected: u8,
    pub answer: Wrote,
}

pub fn write_register(ok: bool, voice: Voice, register: u8, value: u8) -> Voiced<Wrote>
    ensures { result ≡ voiced ok register value voice }
{
    if !ok {
        return Voiced {
            voice,
            answer: nothing_written(refusals::OUT_OF_RANGE),
        };
    }
    let bytes = voice.registers;
    let answer = written(bytes, register, value);
    let after = applied(voice, register, value);
    Voiced {
        voice: after,
        answer,
    }
}

// 01: "mark a pending flip if the period is now at most 1 and the IRQ flag is on". Where it is off one register's own settings are all there is
// to set, and the rest of the voice stays where it is. `write_register` alone calls this: with a second caller it would not be inlined.
fn applied(voice: Voice, register: u8, value: u8) -> Voice
    ensures { result ≡ apply_register register value voice }
{
    if voice.irq {
        // a copy: what is lent to a call lies in memory, and the voice need not
        let held = voice;
        return held.apply_register(register, value);
    }
    if register >= registers::REGISTERS {
        return voice;
    }
    let byte = registers::masked_byte(register, value);
    let held = voice.registers;
    let bytes = stored_bytes::put(held, register, byte);
    let before = settling::settings_of(voice.generators, voice.gates);
    let settings = settling::settled_one(bytes, register, before);
    settling::with_settings(bytes, settings, voice)
}

// Fourteen registers, each written once, and R13 among them.
pub fn load_registers(ok: bool, voice: Voice, bytes: [u8; 16]) -> Voiced<Counts>
    ensures { result ≡ voiced_all ok bytes voice }
{
    if !ok {
        return Voiced {
            voice,
            answer: Counts {
                no: refusals::OUT_OF_RANGE,
                changed: 0,
                restarted: 0,
            },
        };
    }
    let before = voice.registers;
    let after = all_registers::load_registers(voice, bytes);
    let left = after.registers;
    let answer = Counts {
        no: refusals::ACCEPTED,
        changed: write_effects::differences(before, left),
        restarted: 1,
    };
    Voiced {
        voice: after,
        answer,
    }
}

pub fn write_port_immediate(
    ok: bool,
    voice: Voice,
    selected: u8,
    port: u8,
    value: u8,
) -> PortWritten
    ensures { result ≡ port_written ok voice selected port value }
{
    if !ok {
        return PortWritten {
            voice,
            selected,
            answer: nothing_written(refusals::OUT_OF_RANGE),
        };
    }
    if steps_registers::bit_1_clear(port) {
        return PortWritten {
            voice,
            selected: value % 16,
            answer: nothing_written(refusals::ACCEPTED),
        };
    }
    let bytes = voice.registers;
    let answer = written(bytes, selected, value);
    let after = voice.apply_register(selected, value);
    PortWritten {
        voice: after,
        selected,
        answer,
    }
}

// What an accepted write changes.
fn written(bytes: [u8; 14], register: u8, value: u8) -> Wrote
    ensures { result ≡ wrote accepted (changed_by register value bytes) (restarted_by register) }
{
    let effect = write_effects::effect_of(bytes, register, value);
    Wrote {
        no: refusals::ACCEPTED,
        changed: effect.changed,
        restarted: effect.restarted,
    }
}

// No and no.
fn nothing_written(no: u8) -> Wrote
    ensures { result ≡ wrote no false false }
{
    Wrote {
        no,
        changed: false,
        restarted: false,
    }
}
