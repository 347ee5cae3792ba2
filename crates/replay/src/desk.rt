// A call to a chip: the chip after it, and what the call answers.
use crate::after::After;
use crate::said;
use crate::said::Said;
use answers::{Answered, Blocked, Sampled};
use chip::Chip;
use script_calls::{Apply, Call, Change, Look};
use script_state::with_setting;

// How the calls reach the chip: by value, or lent.
pub trait Desk {
    fn change(chip: Chip, change: Change) -> Answered;

    fn apply(chip: Chip, apply: Apply) -> After<'static>;

    fn look(chip: Chip, look: Look) -> Said<'static>;

    fn word(chip: Chip) -> Sampled;

    fn block(chip: Chip, words: &mut [u16]) -> Blocked;
}

// The words of a block are put into the buffer.
pub fn called<'w, D: Desk>(chip: Chip, call: Call, words: &'w mut [u16; 65537]) -> After<'w> {
    match call {
        Call::Look(look) => kept(chip, D::look(chip, look)),
        Call::Waiting(place) => kept(chip, said::waiting(&chip.queue, usize::from(place))),
        Call::Word => After::sampled(D::word(chip), words),
        Call::Block(count) => {
            let room = count.min(words.len());
            let played = D::block(chip, &mut words[..room]);
            After::played(played, words)
        }
        Call::Apply(apply) => D::apply(chip, apply),
        Call::Change(change) => After::from(D::change(chip, change)),
        Call::New(master, rate) => After::from(calls::with_clocks(master, rate)),
        Call::Make(master, rate, variant) => After::from(calls::with_variant(
            master, rate, variant,
        )),
        Call::Default => accepted(calls::new()),
        Call::Set(setting) => accepted(with_setting(chip, setting)),
        Call::Lent(_) => accepted(chip),
    }
}

fn kept<'w>(chip: Chip, said: Said<'w>) -> After<'w> {
    After { chip, said }
}

fn accepted<'w>(chip: Chip) -> After<'w> {
    After::from(answers::accepted(chip))
}
