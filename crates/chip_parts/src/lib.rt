// A chip at its start, and a chip with one part changed. 01, "Power-on and reset", "Registers and ports".
#![tactic(auto)]

ghost use Rattle.std.specs.Prelude.{◌≡◌};
ghost use Rattle.chip_parts.specs.Parts.{at_start, with_channels, with_voice};

use chip::{Chip, Clocks, Core};
use queue::Queue;
use registers::Voice;
use three_channels::Channels;

// Selection, accumulator, stamp and the next word's start at 0, and the queue empty: so a chip is made, and so reset leaves it.
pub fn at_start(clocks: Clocks, variant: u8, voice: Voice, channels: Channels) -> Chip
    ensures { result ≡ at_start clocks variant voice channels }
{
    let queue = Queue::new();
    let core = Core {
        clocks,
        voice,
        channels,
        selected: 0,
        variant,
        accumulator: 0,
        stamp: 0,
        start: 0,
    };
    Chip { core, queue }
}

pub fn with_voice(chip: Chip, voice: Voice) -> Chip
    ensures { result ≡ with_voice voice chip }
{
    let mut core = chip.core;
    core.voice = voice;
    let mut after = chip;
    after.core = core;
    after
}

pub fn with_channels(chip: Chip, channels: Channels) -> Chip
    ensures { result ≡ with_channels channels chip }
{
    let mut core = chip.core;
    core.channels = channels;
    let mut after = chip;
    after.core = core;
    after
}
