// What register writes change, for the calls to report. 02, request 03.
#![tactic(auto)]

ghost use Rattle.std.specs.Prelude.{◌≡◌, ◌+◌, ◌<◌};
ghost use Rattle.write_effects.specs.Effects.{differences, effect_of, one};

// Of one write: whether the stored byte changed, and whether the envelope restarted.
#[derive(Clone, Copy)]
pub struct Effect {
    pub changed: bool,
    pub restarted: bool,
}

// Of some: how many did.
#[derive(Clone, Copy)]
pub struct Effects {
    pub changed: u32,
    pub restarted: u32,
}

pub fn effect_of(bytes: [u8; 14], register: u8, value: u8) -> Effect
    ensures { result ≡ effect_of register value bytes }
{
    if register >= registers::REGISTERS {
        return Effect {
            changed: false,
            restarted: false,
        };
    }
    let at = register as usize;
    let byte = registers::masked_byte(register, value);
    Effect {
        changed: byte != bytes[at],
        restarted: register == 13,
    }
}

// Where no register is written twice, as many writes changed a byte as bytes differ.
pub fn differences(before: [u8; 14], after: [u8; 14]) -> u32
    ensures { result ≡ differences 14 0 before after }
{
    let mut found: u32 = 0;
    for (old, new) in before.iter().zip(after.iter()) {
        found = counted(found, new != old);
    }
    found
}

// One more, where it happened.
pub fn counted(found: u32, happened: bool) -> u32
    requires { found < 0xffff_ffff }
    ensures { result ≡ found + one happened }
{
    if happened {
        return found + 1;
    }
    found
}
