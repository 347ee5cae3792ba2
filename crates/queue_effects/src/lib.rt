// What applied writes changed, counted where they stood in the ring: applying them wrote no slot. 02, request 03.
#![tactic(auto)]

ghost use Rattle.std.specs.Prelude.{◌≡◌, ◌<◌, ◌≤◌};
ghost use Rattle.write_effects.specs.Effects.{effects_of};
ghost use Rattle.queue_effects.specs.Slots.{writes_at};

use write_effects::Effects;

// The first `applied` writes from the place `head` on, which found these bytes. Each is held to the byte just before it.
pub fn effects<'t>(
    registers: &'t [u8; 256],
    values: &'t [u8; 256],
    head: usize,
    applied: usize,
    bytes: [u8; 14],
) -> Effects
    requires { (head < 256) × (applied ≤ 256) }
    ensures { result ≡ effects_of (writes_at registers.now values.now head applied) bytes }
{
    let mut changed: u32 = 0;
    let mut restarted: u32 = 0;
    let mut held = bytes;
    for i in 0..applied {
        let at = (head + i) % 256;
        let register = registers[at];
        if register < registers::REGISTERS {
            let place = register as usize;
            let byte = registers::masked_byte(register, values[at]);
            changed = write_effects::counted(changed, byte != held[place]);
            held[place] = byte;
        }
        restarted = write_effects::counted(restarted, register == 13);
    }
    Effects { changed, restarted }
}
