// The envelope. 01, "Power-on and reset", "Registers and ports" and "One tick, one word"; the crate's generators.rs.
#![tactic(auto)]

ghost use Rattle.std.specs.Prelude.{◌≡◌};
ghost use Rattle.envelope_wave.specs.Wave.{wave_of};
ghost use Rattle.envelope.specs.Envelope.{envelope_tick, envelope_reset, envelope_set, shaped, restarted, next_position, row_place, envelope_level};
ghost use Rattle.envelope.specs.Range.{PositionInRange, EnvelopeInRange};

use envelope_wave::Wave;

// `offset` is where the shape's row begins.
#[repr(C)]
#[derive(Clone, Copy)]
pub struct Envelope {
    pub counter: u16,
    pub period: u16,
    pub position: i32,
    pub offset: u16,
}

// Where an envelope restarts: it runs up to 0 once, and then circles 0..63.
pub const START: i32 = -64;

impl Envelope {
    pub fn set_period(self, period: u16) -> Envelope
        ensures { result ≡ envelope_set period self }
    {
        let mut next = self;
        next.period = period;
        next
    }

    // 01: "restarts at -64 with counter 0, even for the same byte"
    pub fn set_shape(self, shape: u8) -> Envelope
        ensures { result ≡ shaped shape self }
    {
        let mut next = self;
        let offset = envelope_shapes::shape_offset(shape);
        next.offset = offset;
        next.trigger()
    }

    pub fn trigger(self) -> Envelope
        ensures { result ≡ restarted self }
    {
        let mut next = self;
        next.position = START;
        next.counter = 0;
        next
    }

    pub fn tick(self) -> Envelope
        ensures { result ≡ envelope_tick self }
    {
        let mut next = self;
        let count = self.counter as u32 + 1;
        if count < self.period as u32 {
            next.counter = count as u16;
        } else {
            let position = next_position(self.position);
            next.position = position;
            next.counter = 0;
        }
        next
    }

    pub fn level(self) -> u8
        requires { EnvelopeInRange self }
        ensures { result ≡ envelope_level self }
    {
        envelope_shapes::envelope_entry(self.offset, place(self.position))
    }

    // The same where the shape's wave is at hand.
    pub fn level_in(self, wave: Wave) -> u8
        requires envelope_in_range { EnvelopeInRange self }
        requires wave_value { wave ≡ wave_of self.offset }
        ensures { result ≡ envelope_level self }
    {
        wave.entry(place(self.position))
    }

    // The period stays.
    pub fn reset(self) -> Envelope
        ensures { result ≡ envelope_reset self }
    {
        Envelope {
            counter: 0,
            period: self.period,
            position: 0,
            offset: 0,
        }
    }
}

pub fn next_position(position: i32) -> i32
    ensures { result ≡ next_position position }
{
    if position < 63 { position + 1 } else { 0 }
}

// The place in a row: position plus 64.
fn place(position: i32) -> usize
    requires { PositionInRange position }
    ensures { result ≡ row_place position }
{
    (position + 64) as usize
}
