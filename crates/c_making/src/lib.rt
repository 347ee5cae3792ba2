// A new chip, in the record that a host lends for it. 01, "Power-on and reset".
#![tactic(auto)]

ghost use Rattle.std.specs.Prelude.{◌≡◌};
ghost use Rattle.answers.specs.Answers.{answered};
ghost use Rattle.calls_making.specs.Making.{fresh, with_clocks, with_variant};
ghost use Rattle.refusals.specs.Numbers.{accepted};
ghost use Rattle.c_making.specs.Making.{new_record};

use answers::Answered;
use c_record::Record;
use c_told::Told;

pub fn new() -> Told
    ensures { result ≡ new_record (answered accepted fresh) }
{
    let chip = Record::from(calls_making::new());
    Told {
        chip,
        no: refusals::ACCEPTED,
    }
}

// Refused clocks give a fresh default chip.
pub fn with_clocks(master: u32, rate: u32) -> Told
    ensures { result ≡ new_record (with_clocks master rate) }
{
    in_record(calls_making::with_clocks(master, rate))
}

// So does a refused variant.
pub fn with_variant(master: u32, rate: u32, variant: u8) -> Told
    ensures { result ≡ new_record (with_variant master rate variant) }
{
    in_record(calls_making::with_variant(master, rate, variant))
}

fn in_record(made: Answered) -> Told
    ensures { result ≡ new_record made }
{
    let no = made.no;
    let chip = Record::from(made.chip);
    Told { chip, no }
}
