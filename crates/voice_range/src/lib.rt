// The test of a voice that is handed in, a part of refusal 22. 01, "What changes shape".
#![tactic(auto)]

ghost use Rattle.std.specs.Prelude.{◌≡◌};
ghost use Rattle.voice_range.specs.Range.{bytes_in, tone_in, noise_in, all_or_none, envelope_in, generators_in, gates_in, voice_in};

use envelope::Envelope;
use gates::Gates;
use generators::Generators;
use noise::Noise;
use registers::Voice;
use tone::Tone;

#[tactic(auto, unfolding(crate::specs::Range::voice_in))]
pub fn voice_in(voice: Voice) -> bool
    ensures { result ≡ voice_in voice }
{
    bytes_in(voice.registers) && generators_in(voice.generators) && gates_in(voice.gates)
}

fn bytes_in(registers: [u8; 14]) -> bool
    ensures { result ≡ bytes_in registers }
{
    registers
        .iter()
        .enumerate()
        .all(|(i, byte)| *byte <= tables::register_mask(i))
}

#[tactic(auto, unfolding(crate::specs::Range::generators_in))]
fn generators_in(generators: Generators) -> bool
    ensures { result ≡ generators_in generators }
{
    tone_in(generators.a, tone::BITS_A)
        && tone_in(generators.b, tone::BITS_B)
        && tone_in(generators.c, tone::BITS_C)
        && noise_in(generators.noise)
        && envelope_in(generators.envelope)
}

#[tactic(auto, unfolding(crate::specs::Range::tone_in))]
fn tone_in(tone: Tone, bits: u32) -> bool
    ensures { result ≡ tone_in bits tone }
{
    tone.period <= 4095 && tone.edges & bits == tone.edges
}

#[tactic(auto, unfolding(crate::specs::Range::noise_in))]
fn noise_in(noise: Noise) -> bool
    ensures { result ≡ noise_in noise }
{
    noise.period <= 31
        && noise.register >= 1
        && noise.register <= 131_071
        && all_or_none(noise.output)
}

#[tactic(auto, unfolding(crate::specs::Range::all_or_none))]
fn all_or_none(output: u32) -> bool
    ensures { result ≡ all_or_none output }
{
    output == 0 || output == 0xffff_ffff
}

#[tactic(auto, unfolding(crate::specs::Range::envelope_in))]
fn envelope_in(envelope: Envelope) -> bool
    ensures { result ≡ envelope_in envelope }
{
    envelope.position >= envelope::START
        && envelope.position <= 63
        && envelope.offset % 128 == 0
        && envelope.offset <= 1152
}

#[tactic(auto, unfolding(crate::specs::Range::gates_in))]
fn gates_in(gates: Gates) -> bool
    ensures { result ≡ gates_in gates }
{
    gates.tone <= 0x7fff && gates.noise <= 0x7fff
}
