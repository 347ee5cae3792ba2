// What a frame of a dump writes. 01, "The dump player", as request 02 amends it; 02, request 03.
#![tactic(auto)]

ghost use Rattle.std.specs.Prelude.{true, ◌≡◌, ℕ, ◌<◌, get_or};
ghost use Rattle.text_fields.specs.Fields.{hex_byte};
ghost use Rattle.dump_lines.specs.OneLine.{is_frame};
ghost use Rattle.registers.specs.Writes.{applied_in_order};
ghost use Rattle.write_effects.specs.Effects.{restarts_in};
ghost use Rattle.dump_writes.specs.Writes.{frame_writes};

use registers::Voice;

// R0 to R12 at once and in order, and R13 unless its byte is ff: in a ripper's dump that says that the tune did not touch the shape.
pub fn write_frame(voice: Voice, value: &[u8]) -> Voice
    requires { is_frame value.now ≡ true }
    ensures { result ≡ applied_in_order (frame_writes value.now) voice }
{
    // The digits are read first: a loop that reads them too is not unrolled, and slower.
    let bytes = bytes_of(value);
    let mut next = voice;
    for register in 0..13 {
        next = next.apply_register(register, bytes[register as usize]);
    }
    if bytes[13] == 0xff {
        return next;
    }
    next.apply_register(13, bytes[13])
}

// How many of its writes restart the envelope: none where R13's byte is ff.
pub fn restarts(value: &[u8]) -> u32
    requires { is_frame value.now ≡ true }
    ensures { result ≡ restarts_in (frame_writes value.now) }
{
    if text_fields::hex_byte(value, 13) == 0xff {
        return 0;
    }
    1
}

fn bytes_of(value: &[u8]) -> [u8; 14]
    requires { is_frame value.now ≡ true }
    ensures { (i : ℕ) → i < 14 → get_or result i 0 ≡ hex_byte value.now i }
{
    let mut bytes = [0u8; 14];
    for (i, byte) in bytes.iter_mut().enumerate() {
        *byte = text_fields::hex_byte(value, i);
    }
    bytes
}
