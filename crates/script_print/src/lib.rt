// How a script's output shows bytes, floats and numbers, by `text_put`. Nothing here knows a chip.
#![tactic(auto)]

use std::fmt;

// Two hex digits to a byte.
#[derive(Clone, Copy)]
pub struct Bytes<'a>(pub &'a [u8]);

impl fmt::Display for Bytes<'_> {
    fn fmt<W: fmt::Write>(&self, f: &mut fmt::Formatter<W>) -> fmt::Result {
        for byte in self.0 {
            write_hex(f, *byte as u64, 2)?;
        }
        Ok(())
    }
}

// The bits in eight hex digits. Every NaN gives the same: there is one.
#[derive(Clone, Copy)]
pub struct Bits(pub f32);

impl fmt::Display for Bits {
    fn fmt<W: fmt::Write>(&self, f: &mut fmt::Formatter<W>) -> fmt::Result {
        let x = self.0;
        let bits = if x == x { f32::to_bits(x) } else { 0x7fc0_0000 };
        write_hex(f, bits as u64, 8)
    }
}

// A number in decimal.
#[derive(Clone, Copy)]
pub struct Decimal(pub u64);

impl fmt::Display for Decimal {
    fn fmt<W: fmt::Write>(&self, f: &mut fmt::Formatter<W>) -> fmt::Result {
        let mut text = [0u8; 20];
        let end = text_put::put_decimal(&mut text, 0, self.0);
        write_start(f, &text, end)
    }
}

// The last `width` digits, eight at most.
fn write_hex<W: fmt::Write>(f: &mut fmt::Formatter<W>, n: u64, width: usize) -> fmt::Result {
    let mut text = [0u8; 8];
    let end = text_put::put_hex(&mut text, 0, n, width);
    write_start(f, &text, end)
}

fn write_start<W: fmt::Write>(f: &mut fmt::Formatter<W>, text: &[u8], end: usize) -> fmt::Result {
    for byte in text.iter().take(end) {
        f.write_char(char::from(*byte))?;
    }
    Ok(())
}
