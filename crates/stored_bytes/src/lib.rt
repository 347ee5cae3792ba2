// The stored bytes with one more, and which registers were written. 01, "Registers and ports": "the byte is masked .. and stored".
#![tactic(auto)]

ghost use Rattle.std.specs.Prelude.{cond, ◌≡◌, ◌<◌, eqb, set};
ghost use Rattle.stored_bytes.specs.Marks.{marked};

// A mark for the register, beside those of the registers written before.
pub fn mark(marks: u32, register: u8) -> u32
    requires { register < 14 }
    ensures { result ≡ marked register marks }
{
    marks | (1u32 << (register as u32))
}

// By fourteen choices: a store at a place that varies would keep the bytes in memory.
pub fn put(bytes: [u8; 14], register: u8, byte: u8) -> [u8; 14]
    ensures { result ≡ set bytes register byte }
{
    [
        chosen(register, 0, byte, bytes[0]),
        chosen(register, 1, byte, bytes[1]),
        chosen(register, 2, byte, bytes[2]),
        chosen(register, 3, byte, bytes[3]),
        chosen(register, 4, byte, bytes[4]),
        chosen(register, 5, byte, bytes[5]),
        chosen(register, 6, byte, bytes[6]),
        chosen(register, 7, byte, bytes[7]),
        chosen(register, 8, byte, bytes[8]),
        chosen(register, 9, byte, bytes[9]),
        chosen(register, 10, byte, bytes[10]),
        chosen(register, 11, byte, bytes[11]),
        chosen(register, 12, byte, bytes[12]),
        chosen(register, 13, byte, bytes[13]),
    ]
}

fn chosen(register: u8, place: u8, byte: u8, held: u8) -> u8
    ensures { result ≡ cond (eqb register place) byte held }
{
    if register == place { byte } else { held }
}
