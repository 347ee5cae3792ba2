// New chips and reset. 01, "Power-on and reset"; 02, request 05.
#![tactic(auto)]

ghost use Rattle.std.specs.Prelude.{◌≡◌};
ghost use Rattle.calls_making.specs.Making.{fresh, made_of, reset_call, with_clocks, with_variant};

use answers::Answered;
use chip::{Chip, Clocks};
use three_channels::Channels;

pub const DEFAULT_MASTER_CLOCK: u32 = 2_000_000;

pub const DEFAULT_SAMPLE_RATE: u32 = 250_000;

pub const DEFAULT_VARIANT: u8 = 0;

pub fn new() -> Chip
    ensures { result ≡ fresh }
{
    made(
        chip::clocks_of(DEFAULT_MASTER_CLOCK, DEFAULT_SAMPLE_RATE),
        DEFAULT_VARIANT,
    )
}

pub fn with_clocks(master: u32, rate: u32) -> Answered
    ensures { result ≡ with_clocks master rate }
{
    with_variant(master, rate, DEFAULT_VARIANT)
}

// Refused clocks and a refused variant give a fresh default chip.
pub fn with_variant(master: u32, rate: u32, variant: u8) -> Answered
    ensures { result ≡ with_variant master rate variant }
{
    match variants::accept_making(master, rate, variant) {
        Ok(()) => answers::accepted(made(chip::clocks_of(master, rate), variant)),
        Err(why) => Answered {
            chip: new(),
            no: why.number(),
        },
    }
}

// Not a new chip: the variant, noise and envelope periods, mutes and last amplitudes stay.
pub fn reset(chip: Chip) -> Answered
    ensures { result ≡ reset_call chip }
{
    if !chip::in_range(chip) {
        return answers::refused(chip);
    }
    let clocks = chip.core.clocks;
    let variant = chip.core.variant;
    let voice = all_registers::reset(chip.core.voice);
    let channels = chip.core.channels.reset();
    answers::accepted(chip_parts::at_start(clocks, variant, voice, channels))
}

fn made(clocks: Clocks, variant: u8) -> Chip
    ensures { result ≡ made_of clocks variant }
{
    chip_parts::at_start(clocks, variant, all_registers::new(), Channels::new())
}
