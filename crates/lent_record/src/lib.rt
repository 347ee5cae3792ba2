// A record that a C or Rust host owns and lends: the test of it where it lies, refusal 22. 01, "What changes shape".
#![tactic(auto)]

ghost use Rattle.std.specs.Prelude.{◌≡◌, true};
ghost use Rattle.queue.specs.Waiting.{QueueInRange};
ghost use Rattle.chip.specs.Range.{CoreInRange, chip_in};
ghost use Rattle.c_record.specs.Record.{chip_of, core_of};

use c_record::Record;

// A record that passes is in range: the calls ask it of the parts that they are handed.
pub fn in_range(lent: &Record) -> bool
    ensures answer { result ≡ chip_in (chip_of lent.now) }
    ensures queue { result ≡ true → QueueInRange lent.now.queue }
    ensures core { result ≡ true → CoreInRange (core_of lent.now.core) }
{
    lent_chip::arrays(
        &lent.core.voice.registers,
        &lent.queue.stamps,
        &lent.queue.registers,
        &lent.queue.values,
    );
    chip::parts_in(
        lent.core.clocks,
        lent.core.accumulator,
        lent.core.variant,
        lent.core.voice,
        lent.core.selected,
        lent.queue.registers,
        lent.queue.head,
        lent.queue.count,
    )
}
