// Which clocks are accepted: the refusals 1, 2 and 3, for a chip and for a dump's lines. 01, "Numbers a call can answer".
#![tactic(auto)]

ghost use Rattle.std.specs.Prelude.{◌≡◌};
ghost use Rattle.clocks.specs.Clocks.{accept_clocks, accept_master, accept_rate};

use refusals::Refusal;

pub const HIGHEST_MASTER_CLOCK: u64 = 1_073_741_823;

#[tactic(auto, unfolding(crate::specs::Clocks::accept_clocks))]
pub fn accept_clocks(master: u32, rate: u32) -> Result<(), Refusal>
    ensures { result ≡ accept_clocks master rate }
{
    accept_master(master as u64)?;
    accept_rate(master as u64, rate as u64)
}

pub fn accept_master(master: u64) -> Result<(), Refusal>
    ensures { result ≡ accept_master master }
{
    if master > HIGHEST_MASTER_CLOCK {
        return Err(Refusal::MasterTooHigh);
    }
    Ok(())
}

pub fn accept_rate(master: u64, rate: u64) -> Result<(), Refusal>
    ensures { result ≡ accept_rate master rate }
{
    if rate == 0 {
        return Err(Refusal::RateZero);
    }
    if rate > master / 8 {
        return Err(Refusal::RateTooHigh);
    }
    Ok(())
}
