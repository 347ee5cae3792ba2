// The chip's record, and the test of one that is handed in, refusal 22. 01, "What changes shape".
#![tactic(auto)]

ghost use Rattle.std.specs.Prelude.{◌≡◌};
ghost use Rattle.refusals.specs.Numbers.{accepted};
ghost use Rattle.clocks.specs.Clocks.{clocks_no};
ghost use Rattle.chip.specs.Clocks.{clocks_of};
ghost use Rattle.chip.specs.Range.{clocks_in, core_in, chip_in, parts_in};

use queue::Queue;
use registers::Voice;
use three_channels::Channels;

// Accepted clocks and their quotients: the internal clock is a tick's, and `cycles` are the CPU's in a word.
#[repr(C)]
#[derive(Clone, Copy)]
pub struct Clocks {
    pub master: u32,
    pub rate: u32,
    pub internal: u32,
    pub cycles: u64,
}

// All of the chip but its waiting writes.
#[derive(Clone, Copy)]
pub struct Core {
    pub clocks: Clocks,
    pub voice: Voice,
    pub channels: Channels,
    pub selected: u8,
    pub variant: u8,
    pub accumulator: u32,
    pub stamp: u64,
    pub start: u64,
}

#[derive(Clone, Copy)]
pub struct Chip {
    pub core: Core,
    pub queue: Queue,
}

// The quotients of clocks that are accepted.
pub fn clocks_of(master: u32, rate: u32) -> Clocks
    requires { clocks_no master rate ≡ accepted }
    ensures { result ≡ clocks_of master rate }
{
    Clocks {
        master,
        rate,
        internal: master / 8,
        cycles: 4 * (master as u64) / (rate as u64),
    }
}

pub fn in_range(chip: Chip) -> bool
    ensures { result ≡ chip_in chip }
{
    if !core_in(chip.core) {
        return false;
    }
    if !chip.queue.in_range() {
        return false;
    }
    true
}

// The same test by what it looks at, for a record that is lent: read where it lies, as long as this has one caller in a program.
#[tactic(auto, unfolding(crate::specs::Range::parts_in))]
pub fn parts_in(
    clocks: Clocks,
    accumulator: u32,
    variant: u8,
    voice: Voice,
    selected: u8,
    registers: [u8; 256],
    head: usize,
    count: usize,
) -> bool
    ensures { result ≡ parts_in clocks accumulator variant voice selected registers head count }
{
    if !clocks_in(clocks, accumulator) {
        return false;
    }
    if !variants::variant_in(variant) {
        return false;
    }
    if !voice_range::voice_in(voice) {
        return false;
    }
    if selected > 15 {
        return false;
    }
    if !queue::ring_in(registers, head, count) {
        return false;
    }
    true
}

fn core_in(core: Core) -> bool
    ensures { result ≡ core_in core }
{
    if !clocks_in(core.clocks, core.accumulator) {
        return false;
    }
    if !variants::variant_in(core.variant) {
        return false;
    }
    if !voice_range::voice_in(core.voice) {
        return false;
    }
    if core.selected > 15 {
        return false;
    }
    true
}

#[tactic(auto, unfolding(crate::specs::Range::clocks_in))]
fn clocks_in(clocks: Clocks, accumulator: u32) -> bool
    ensures { result ≡ clocks_in clocks accumulator }
{
    if clocks::accept_clocks(clocks.master, clocks.rate).is_err() {
        return false;
    }
    if clocks.internal != clocks.master / 8 {
        return false;
    }
    if clocks.cycles != 4 * (clocks.master as u64) / (clocks.rate as u64) {
        return false;
    }
    if accumulator >= clocks.rate {
        return false;
    }
    true
}
