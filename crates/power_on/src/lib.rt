// The edges that the tones start with. 01, "Power-on and reset"; the crate's generators.rs.
#![tactic(auto)]

ghost use Rattle.std.specs.Prelude.{◌≡◌, ◌*◌, ◌%◌, ◌^◌};
ghost use Rattle.power_on.specs.Seed.{seeded, power_on_edges};

// A and B start high, C low.
pub fn power_on_edges() -> u32
    ensures { result ≡ power_on_edges }
{
    (random_seed(1) as u32 & 0x421) * 0x1f
}

pub fn random_seed(seed: u32) -> u16
    ensures { result ≡ seeded seed }
{
    let next = std::num::wrapping_add_u32(wrapping_mul(seed, 214013), 2531011);
    (next / 65536 % 32768) as u16
}

fn wrapping_mul(a: u32, b: u32) -> u32
    ensures { result ≡ a * b % 2 ^ 32 }
{
    let product = a as u64 * b as u64;
    (product % 0x1_0000_0000) as u32
}
