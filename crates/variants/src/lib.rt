// Which variants there are, and what making a chip of one answers: refusal 13, behind 1, 2 and 3. 02, request 05.
#![tactic(auto)]

ghost use Rattle.std.specs.Prelude.{◌≡◌};
ghost use Rattle.variants.specs.Variants.{accept_making, variant_in};

use refusals::Refusal;

// The crate's part, the full-scale part and the 16-step sister part. A byte, as C's record has it, where any byte can stand.
pub const LAST_VARIANT: u8 = 2;

#[tactic(auto, unfolding(crate::specs::Variants::variant_in))]
pub fn variant_in(variant: u8) -> bool
    ensures { result ≡ variant_in variant }
{
    variant <= LAST_VARIANT
}

#[tactic(auto, unfolding(crate::specs::Variants::accept_making))]
pub fn accept_making(master: u32, rate: u32, variant: u8) -> Result<(), Refusal>
    ensures { result ≡ accept_making master rate variant }
{
    clocks::accept_clocks(master, rate)?;
    if !variant_in(variant) {
        return Err(Refusal::NoSuchVariant);
    }
    Ok(())
}
