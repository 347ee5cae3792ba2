// The words of a block, as they are printed.
use std::fmt;

// A longer block prints its first and last word and a check of all.
const SHOWN: usize = 32;

#[derive(Clone, Copy)]
pub struct Words<'w>(pub &'w [u16]);

impl fmt::Display for Words<'_> {
    fn fmt<W: fmt::Write>(&self, f: &mut fmt::Formatter<W>) -> fmt::Result {
        if let [first, .., last] = self.0 {
            if self.0.len() > SHOWN {
                let check = check_of(self.0);
                return write!(f, " {first} {last} {check:08x}");
            }
        }
        for word in self.0 {
            write!(f, " {word}")?;
        }
        Ok(())
    }
}

// 32-bit FNV-1a of the words' bytes, the low byte of each first.
fn check_of(words: &[u16]) -> u32 {
    words.iter().fold(2_166_136_261, with_word)
}

// Two calls, and no iterator over the bytes: that took five times the instructions, a fifth of a run of long blocks.
fn with_word(sum: u32, word: &u16) -> u32 {
    let bytes = word.to_le_bytes();
    with_byte(with_byte(sum, bytes[0]), bytes[1])
}

fn with_byte(sum: u32, byte: u8) -> u32 {
    (sum ^ u32::from(byte)).wrapping_mul(16_777_619)
}
