// What a call answers, as it is printed: its number, and what stands after it.
use crate::block::Words;
use answers::{Byte, Bytes, Count, Counts, Cycle, Flag, Outputs, Wrote};
use queue::Queue;
use script_print::{Bits, Decimal};
use std::fmt;

#[derive(Clone, Copy)]
pub struct Said<'w> {
    pub no: u8,
    pub rest: Rest<'w>,
}

#[derive(Clone, Copy)]
pub enum Rest<'w> {
    Nothing,
    Number(u64),
    Bytes([u8; 16]),
    Floats(f32, f32, f32),
    // how many writes changed a byte, and how many restarted the envelope
    Changed(u32, u32),
    // the ticks, the same of all that was due, and the words
    Words(u64, u32, u32, &'w [u16]),
    // a waiting write's stamp, register and value
    Waiting(u64, u8, u8),
    NoneWaits,
}

impl fmt::Display for Said<'_> {
    fn fmt<W: fmt::Write>(&self, f: &mut fmt::Formatter<W>) -> fmt::Result {
        let no = self.no;
        write!(f, "{no}")?;
        match self.rest {
            Rest::Nothing => Ok(()),
            Rest::Number(n) => {
                let n = Decimal(n);
                write!(f, " {n}")
            }
            Rest::Bytes(bytes) => write_bytes(f, &bytes),
            Rest::Floats(a, b, c) => {
                let a = Bits(a);
                let b = Bits(b);
                let c = Bits(c);
                write!(f, " {a} {b} {c}")
            }
            Rest::Changed(changed, restarted) => write!(f, " {changed} {restarted}"),
            Rest::Words(ticks, changed, restarted, words) => {
                let count = words.len();
                let words = Words(words);
                write!(f, " {count} {ticks} {changed} {restarted}{words}")
            }
            Rest::Waiting(stamp, register, value) => write!(f, " {stamp} {register} {value}"),
            Rest::NoneWaits => f.write_str(" none"),
        }
    }
}

fn write_bytes<W: fmt::Write>(f: &mut fmt::Formatter<W>, bytes: &[u8; 16]) -> fmt::Result {
    let shown = script_print::Bytes(bytes);
    write!(f, " {shown}")
}

impl From<Byte> for Said<'_> {
    fn from(answer: Byte) -> Self {
        Said {
            no: answer.no,
            rest: Rest::Number(u64::from(answer.value)),
        }
    }
}

impl From<Bytes> for Said<'_> {
    fn from(answer: Bytes) -> Self {
        Said {
            no: answer.no,
            rest: Rest::Bytes(answer.bytes),
        }
    }
}

impl From<Cycle> for Said<'_> {
    fn from(answer: Cycle) -> Self {
        Said {
            no: answer.no,
            rest: Rest::Number(answer.cycle),
        }
    }
}

impl From<Count> for Said<'_> {
    fn from(answer: Count) -> Self {
        Said {
            no: answer.no,
            rest: Rest::Number(answer.count as u64),
        }
    }
}

impl From<Flag> for Said<'_> {
    fn from(answer: Flag) -> Self {
        Said {
            no: answer.no,
            rest: Rest::Number(answer.yes as u64),
        }
    }
}

impl From<Outputs> for Said<'_> {
    fn from(answer: Outputs) -> Self {
        Said {
            no: answer.no,
            rest: Rest::Floats(answer.a, answer.b, answer.c),
        }
    }
}

impl From<Wrote> for Said<'_> {
    fn from(answer: Wrote) -> Self {
        Said {
            no: answer.no,
            rest: Rest::Changed(answer.changed as u32, answer.restarted as u32),
        }
    }
}

impl From<Counts> for Said<'_> {
    fn from(answer: Counts) -> Self {
        Said {
            no: answer.no,
            rest: Rest::Changed(answer.changed, answer.restarted),
        }
    }
}

// No call: a look at the record's ring.
pub fn waiting<'w>(queue: &Queue, place: usize) -> Said<'w> {
    let rest = if place < queue.count {
        let slot = (queue.head % 256 + place % 256) % 256;
        Rest::Waiting(
            queue.stamps[slot],
            queue.registers[slot],
            queue.values[slot],
        )
    } else {
        Rest::NoneWaits
    };
    Said { no: 0, rest }
}
