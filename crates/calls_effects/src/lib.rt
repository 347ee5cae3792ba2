// The IRQ flag and the envelope's trigger. 01, "Registers and ports".
#![tactic(auto)]

ghost use Rattle.std.specs.Prelude.{◌≡◌};
ghost use Rattle.calls_effects.specs.Effects.{set_timer_irq_state, trigger_envelope};

use answers::Answered;
use chip::Chip;

// Setting the flag off releases the pending flips.
pub fn set_timer_irq_state(chip: Chip, on: bool) -> Answered
    ensures { result ≡ set_timer_irq_state on chip }
{
    let ok = chip::in_range(chip);
    let mut voice = chip.core.voice;
    let r = steps_effects::set_timer_irq_state(ok, voice.generators, voice.irq, on);
    let generators = r.generators;
    voice.generators = generators;
    voice.irq = r.irq;
    let after = chip_parts::with_voice(chip, voice);
    Answered {
        chip: after,
        no: r.no,
    }
}

// The crate's other name for it.
pub fn inside_timer_irq(chip: Chip, inside: bool) -> Answered
    ensures { result ≡ set_timer_irq_state inside chip }
{
    set_timer_irq_state(chip, inside)
}

// The same shape, from -64 again.
pub fn trigger_envelope(chip: Chip) -> Answered
    ensures { result ≡ trigger_envelope chip }
{
    let ok = chip::in_range(chip);
    let mut voice = chip.core.voice;
    let mut generators = voice.generators;
    let r = steps_effects::trigger_envelope(ok, generators.envelope);
    let envelope = r.envelope;
    generators.envelope = envelope;
    voice.generators = generators;
    let after = chip_parts::with_voice(chip, voice);
    Answered {
        chip: after,
        no: r.no,
    }
}
