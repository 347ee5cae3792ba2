// The level of a channel: its index before and behind the gate, and how loud it is. 01, "One tick, one word"; 02, request 05; the crate's
// mixer.rs.
#![tactic(auto)]

ghost use Rattle.std.specs.Prelude.{◌≡◌, ◌<◌};
ghost use Rattle.levels.specs.Levels.{fixed_level, envelope_used, level_used, gated_level, loudness_of};

// The level index of a volume register, before the gate.
pub fn level_used(variant: u8, volume: u8, envelope: u8) -> u8
    ensures { result ≡ level_used variant volume envelope }
{
    if volume / 16 % 2 == 1 {
        envelope_used(variant, envelope)
    } else {
        fixed_level(variant, volume % 16)
    }
}

// That of a fixed volume: 2v, or 2v + 1 and 0 for 0.
pub fn fixed_level(variant: u8, volume: u8) -> u8
    requires { volume < 16 }
    ensures { result ≡ fixed_level variant volume }
{
    if variant == 1 {
        if volume == 0 { 0 } else { volume * 2 + 1 }
    } else {
        volume * 2
    }
}

// That of an envelope level: as it is, or with its lowest bit cleared.
pub fn envelope_used(variant: u8, level: u8) -> u8
    ensures { result ≡ envelope_used variant level }
{
    if variant == 2 { level / 2 * 2 } else { level }
}

// The same behind the gate; `gate` holds the channel's five bits at the bottom.
pub fn gated_level(index: u8, gate: u32) -> u8
    ensures { result ≡ gated_level index gate }
{
    index & ((gate % 32) as u8)
}

pub fn loudness(index: u8, half: bool) -> u16
    requires { index < 32 }
    ensures { result ≡ loudness_of half index }
{
    let level = tables::level(index);
    if half { level / 2 } else { level }
}
