// What a variant means for the levels, worked out once for a block, and where the level of a volume comes from, once for a run of words: so a
// word picks a level with no test of the variant. No rule of its own: it gives the level of `levels` (proofs/Picking.antt). 01, "One tick,
// one word"; 02, request 05.
#![tactic(auto)]

ghost use Rattle.std.specs.Prelude.{◌≡◌, ◌<◌};
ghost use Rattle.level_scale.specs.Scale.{lifted, picked, scale_of, source_of, sources_of, used_of};

// The source of a level that is the envelope's; every other source is a fixed level.
pub const BY_ENVELOPE: u8 = 32;

// `lift` is added to the level of each fixed volume but 0, and `mask` has the bits of an envelope level that are used.
#[derive(Clone, Copy)]
pub struct Scale {
    pub variant: u8,
    pub lift: u8,
    pub mask: u8,
}

pub fn scale_of(variant: u8) -> Scale
    ensures { result ≡ scale_of variant }
{
    Scale {
        variant,
        lift: levels::fixed_level(variant, 1) % 2,
        mask: levels::envelope_used(variant, 31),
    }
}

impl Scale {
    // Those of R8 to R10.
    pub fn sources(self, volumes: [u8; 3]) -> [u8; 3]
        requires { self.lift < 2 }
        ensures { result ≡ sources_of self volumes }
    {
        [
            self.source(volumes[0]),
            self.source(volumes[1]),
            self.source(volumes[2]),
        ]
    }

    fn source(self, volume: u8) -> u8
        requires { self.lift < 2 }
        ensures { result ≡ source_of self volume }
    {
        if volume / 16 % 2 == 1 {
            BY_ENVELOPE
        } else {
            lifted(self.lift, volume % 16)
        }
    }

    // What is used of an envelope level.
    pub fn used(self, envelope: u8) -> u8
        ensures { result ≡ used_of self envelope }
    {
        envelope & self.mask
    }
}

// The level index, before the gate.
pub fn picked(source: u8, used: u8) -> u8
    ensures { result ≡ picked source used }
{
    if source == BY_ENVELOPE { used } else { source }
}

fn lifted(lift: u8, volume: u8) -> u8
    requires { (lift < 2) × (volume < 16) }
    ensures { result ≡ lifted lift volume }
{
    if volume == 0 { 0 } else { volume * 2 + lift }
}
