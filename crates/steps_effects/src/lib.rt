// What the IRQ flag's call and the envelope's trigger change of a lent record, stepped by value: `ok` is the test of the record. 01,
// "Registers and ports".
#![tactic(auto)]

ghost use Rattle.std.specs.Prelude.{◌≡◌};
ghost use Rattle.steps_effects.specs.EffectSteps.{flag_set, trigger_set};

use envelope::Envelope;
use generators::Generators;

// The envelope to store, and the call's number.
#[derive(Clone, Copy)]
pub struct Triggered {
    pub envelope: Envelope,
    pub no: u8,
}

// The generators and the IRQ flag to store, and the call's number.
#[derive(Clone, Copy)]
pub struct Flagged {
    pub generators: Generators,
    pub irq: bool,
    pub no: u8,
}

// The same shape, from -64 again.
#[tactic(auto, unfolding(crate::specs::EffectSteps::trigger_set))]
pub fn trigger_envelope(ok: bool, envelope: Envelope) -> Triggered
    ensures { result ≡ trigger_set ok envelope }
{
    if !ok {
        return Triggered {
            envelope,
            no: refusals::OUT_OF_RANGE,
        };
    }
    let after = envelope.trigger();
    Triggered {
        envelope: after,
        no: refusals::ACCEPTED,
    }
}

// Setting the flag off releases the pending flips.
#[tactic(auto, unfolding(crate::specs::EffectSteps::flag_set))]
pub fn set_timer_irq_state(ok: bool, generators: Generators, irq: bool, on: bool) -> Flagged
    ensures { result ≡ flag_set ok generators irq on }
{
    if !ok {
        return Flagged {
            generators,
            irq,
            no: refusals::OUT_OF_RANGE,
        };
    }
    if on {
        return Flagged {
            generators,
            irq: true,
            no: refusals::ACCEPTED,
        };
    }
    let released = generators.apply_pending_resets();
    Flagged {
        generators: released,
        irq: false,
        no: refusals::ACCEPTED,
    }
}
