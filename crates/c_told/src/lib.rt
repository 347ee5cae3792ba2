// What a call leaves in a host's record, and what it answers. 01, "Numbers a call can answer".
#![tactic(auto)]

ghost use Rattle.std.specs.Prelude.{◌≡◌};
ghost use Rattle.c_told.specs.Told.{lent_back, told};

use answers::Answered;
use c_record::Record;
use chip::Chip;

// The record after a call, and what the call answers.
#[derive(Clone, Copy)]
pub struct Told {
    pub chip: Record,
    pub no: u8,
}

pub fn tell(lent: Record, answered: Answered) -> Told
    ensures { result ≡ told lent answered }
{
    let no = answered.no;
    let chip = lent_back(lent, no, answered.chip);
    Told { chip, no }
}

// A refused call leaves the record as it was, in every byte.
#[tactic(auto, unfolding(crate::specs::Told::lent_back))]
fn lent_back(lent: Record, no: u8, chip: Chip) -> Record
    ensures { result ≡ lent_back lent no chip }
{
    if no != refusals::ACCEPTED {
        return lent;
    }
    Record::from(chip)
}
