// The limits of a block: refusals 5 and 6. 01, "Numbers a call can answer".
#![tactic(auto)]

ghost use Rattle.std.specs.Prelude.{◌≡◌, ◌≤◌};
ghost use Rattle.block_limits.specs.Limits.{accept_block};

use refusals::Refusal;

pub const LONGEST_BLOCK: usize = 65_536;

// Decided without overflow: a word's cycles are below 2^32.
#[tactic(auto, unfolding(crate::specs::Limits::accept_block))]
pub fn accept_block(start: u64, cycles: u64, words: usize) -> Result<(), Refusal>
    requires { cycles ≤ 4294967295 }
    ensures { result ≡ accept_block words start cycles }
{
    if words > LONGEST_BLOCK {
        return Err(Refusal::BlockTooLong);
    }
    let span = (words as u64) * cycles;
    if span > u64::MAX - start {
        return Err(Refusal::BlockTooLate);
    }
    Ok(())
}
