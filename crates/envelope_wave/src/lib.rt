// What the four segments of a shape do, worked out once for a shape, so that a word finds its entry with no test. No rule of its own: at every
// place of a real row it is the entry of `envelope_shapes` (proofs/Entries.antt). 01, "One tick, one word".
#![tactic(auto)]

ghost use Rattle.std.specs.Prelude.{◌≡◌, ◌<◌};
ghost use Rattle.envelope_wave.specs.Wave.{at_step, wave_of, IsWave, wave_entry};

use envelope_shapes::envelope_entry;

// A byte to a segment, the first lowest: 31 in `keeps` where it moves, 31 in `turns` where it is turned over, that is falls or is held high.
// `offset` is where the shape's row begins.
#[derive(Clone, Copy)]
pub struct Wave {
    pub keeps: u32,
    pub turns: u32,
    pub offset: u16,
}

pub fn wave_of(offset: u16) -> Wave
    ensures { result ≡ wave_of offset }
{
    let first = at_step(offset, 0);
    let last = at_step(offset, 31);
    Wave {
        keeps: first ^ last,
        turns: first,
        offset,
    }
}

// The wave of `offset`: made anew only where another shape was picked since `wave` was made.
pub fn wave_after(wave: Wave, offset: u16) -> Wave
    requires { IsWave wave }
    ensures { result ≡ wave_of offset }
{
    if offset == wave.offset {
        wave
    } else {
        wave_of(offset)
    }
}

impl Wave {
    // `place` is the position plus 64.
    pub fn entry(self, place: usize) -> u8
        ensures { result ≡ wave_entry place self }
    {
        let shift = (place / 32 % 4 * 8) as u32;
        let keep = self.keeps >> shift;
        let turn = self.turns >> shift;
        let j = (place % 32) as u32;
        (((j & keep) ^ turn) % 32) as u8
    }
}

// The entries at step j of the four segments, a byte each.
fn at_step(offset: u16, j: usize) -> u32
    requires { j < 32 }
    ensures { result ≡ at_step offset j }
{
    let a = envelope_entry(offset, j) as u32;
    let b = envelope_entry(offset, 32 + j) as u32;
    let c = envelope_entry(offset, 64 + j) as u32;
    let d = envelope_entry(offset, 96 + j) as u32;
    a + 256 * b + 65536 * c + 16777216 * d
}
