// The chip after a call, and what the call answers, by the struct that it gives back.
use crate::said::{Rest, Said};
use answers::{Answered, Applied, Blocked, Sampled, Written};
use chip::Chip;

#[derive(Clone, Copy)]
pub struct After<'w> {
    pub chip: Chip,
    pub said: Said<'w>,
}

impl From<Answered> for After<'_> {
    fn from(after: Answered) -> Self {
        let said = Said {
            no: after.no,
            rest: Rest::Nothing,
        };
        After {
            chip: after.chip,
            said,
        }
    }
}

impl From<Written> for After<'_> {
    fn from(after: Written) -> Self {
        After {
            chip: after.chip,
            said: Said::from(after.answer),
        }
    }
}

impl From<Applied> for After<'_> {
    fn from(after: Applied) -> Self {
        After {
            chip: after.chip,
            said: Said::from(after.answer),
        }
    }
}

impl<'w> After<'w> {
    // The word is put into the buffer. A refused one prints as a block of none.
    pub fn sampled(after: Sampled, words: &'w mut [u16; 65537]) -> After<'w> {
        let answer = after.answer;
        let rest = if answer.no > 0 {
            Rest::Words(0, 0, 0, &[])
        } else {
            words[0] = answer.word;
            Rest::Words(answer.ticks, answer.changed, answer.restarted, &words[..1])
        };
        let said = Said {
            no: answer.no,
            rest,
        };
        After {
            chip: after.chip,
            said,
        }
    }

    // The words stand at the buffer's start.
    pub fn played(after: Blocked, words: &'w [u16; 65537]) -> After<'w> {
        let answer = after.answer;
        let words = words.get(..answer.words).unwrap_or(&[]);
        let said = Said {
            no: answer.no,
            rest: Rest::Words(answer.ticks, answer.changed, answer.restarted, words),
        };
        After {
            chip: after.chip,
            said,
        }
    }
}
