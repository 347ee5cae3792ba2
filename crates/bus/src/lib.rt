// A write on the bus, passed to the chip's ports at its cycle. 02, request 01.
#![tactic(auto)]

ghost use Rattle.std.specs.Prelude.{◌≡◌};
ghost use Rattle.answers.specs.Answers.{answered};
ghost use Rattle.bus.specs.Passing.{pass_write};

use answers::Answered;
use bus_writes::BusWrite;
use chip::Chip;

// Its stamp is set, then its port written. Where that is refused the chip comes back as it was, its stamp too.
pub fn pass_write(chip: Chip, write: BusWrite) -> Answered
    ensures { result ≡ pass_write write chip }
{
    let stamped = calls_cycles::set_cpu_cycle(chip, write.stamp);
    let passed = calls_ports::write_port(stamped.chip, write.port, write.value);
    if passed.no != refusals::ACCEPTED {
        return refused(chip, passed.no);
    }
    passed
}

fn refused(chip: Chip, no: u8) -> Answered
    ensures { result ≡ answered no chip }
{
    Answered { chip, no }
}
