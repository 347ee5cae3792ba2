// The call on a host's record, by value, that `c_interface` makes on a copy of it: makings have `c_making`, words `c_words`, and what
// changes or reads parts of it `c_steps`, `c_queue` and `steps_*`.
#![tactic(auto)]

ghost use Rattle.std.specs.Prelude.{◌≡◌};
ghost use Rattle.c_calls.specs.Calls.{on_record};
ghost use Rattle.calls_making.specs.Making.{reset_call};

use c_record::Record;
use c_told::Told;
use chip::Chip;

pub fn reset(chip: Record) -> Told
    ensures { result ≡ on_record reset_call chip }
{
    let held = Chip::from(chip);
    c_told::tell(chip, calls_making::reset(held))
}
