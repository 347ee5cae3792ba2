// A write on the cabinet's bus: which port, which byte, at which cycle; and the words before which it is due. 02, request 01.
#![tactic(auto)]

ghost use Rattle.std.specs.Prelude.{◌≡◌};
ghost use Rattle.bus_writes.specs.Due.{is_due, words_before};

#[derive(Clone, Copy)]
pub struct BusWrite {
    pub stamp: u64,
    pub port: u8,
    pub value: u8,
}

// Before a word with this end.
pub fn is_due(write: BusWrite, end: u64) -> bool
    ensures { result ≡ is_due end write }
{
    write.stamp <= end
}

// How many words of so many cycles, the first one at `start`, end before a stamp. None of no cycles.
#[tactic(auto, unfolding(crate::specs::Due::words_before))]
pub fn words_before(start: u64, cycles: u64, stamp: u64) -> u64
    ensures { result ≡ words_before start cycles stamp }
{
    let span = stamp.saturating_sub(1).saturating_sub(start);
    span.checked_div(cycles).unwrap_or(0)
}
