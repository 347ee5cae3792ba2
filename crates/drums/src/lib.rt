// What a drum's sample gives. 01, "One tick, one word"; the crate's mixer.rs.
#![tactic(auto)]

ghost use Rattle.std.specs.Prelude.{◌≡◌};
ghost use Rattle.drums.specs.Drums.{cut_of, drum_out};

use std::num::saturating_f32_to_u32;

pub fn drum_out(s: f32) -> u16
    ensures { result ≡ drum_out s }
{
    cut(s / 4.0 * 10922.0)
}

// Rust's saturating `as u32`, at most 10922.
fn cut(x: f32) -> u16
    ensures { result ≡ cut_of x }
{
    saturating_f32_to_u32(x).min(10922) as u16
}
