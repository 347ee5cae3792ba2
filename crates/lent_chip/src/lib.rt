// A chip's record that its owner lends: the test of it where it lies, refusal 22. 01, "What changes shape".
#![tactic(auto)]

ghost use Rattle.std.specs.Prelude.{◌≡◌, true, length};
ghost use Rattle.queue.specs.Waiting.{QueueInRange};
ghost use Rattle.chip.specs.Range.{CoreInRange, chip_in};

use chip::Chip;

// A record that passes is in range: the calls ask it of the parts that they are handed.
pub fn in_range(chip: &Chip) -> bool
    ensures answer { result ≡ chip_in chip.now }
    ensures queue { result ≡ true → QueueInRange chip.now.queue }
    ensures core { result ≡ true → CoreInRange chip.now.core }
{
    arrays(
        &chip.core.voice.registers,
        &chip.queue.stamps,
        &chip.queue.registers,
        &chip.queue.values,
    );
    chip::parts_in(
        chip.core.clocks,
        chip.core.accumulator,
        chip.core.variant,
        chip.core.voice,
        chip.core.selected,
        chip.queue.registers,
        chip.queue.head,
        chip.queue.count,
    )
}

// The arrays of a lent record are as long as their types say.
pub fn arrays(bytes: &[u8; 14], stamps: &[u64; 256], registers: &[u8; 256], values: &[u8; 256])
    ensures bytes_long { length bytes.now ≡ 14 }
    ensures stamps_long { length stamps.now ≡ 256 }
    ensures registers_long { length registers.now ≡ 256 }
    ensures values_long { length values.now ≡ 256 }
{}
