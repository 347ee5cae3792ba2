// What the calls of the chip answer. 01, "Numbers a call can answer". C reads these records, each with its number first: so it is a number here,
// and no enum or Result.
#![tactic(auto)]

ghost use Rattle.std.specs.Prelude.{◌≡◌};
ghost use Rattle.refusals.specs.Numbers.{accepted, out_of_range};
ghost use Rattle.answers.specs.Answers.{answered};

use chip::Chip;

// The chip after a call, and the call's number.
#[derive(Clone, Copy)]
pub struct Answered {
    pub chip: Chip,
    pub no: u8,
}

#[repr(C)]
#[derive(Clone, Copy)]
pub struct Byte {
    pub no: u8,
    pub value: u8,
}

#[repr(C)]
#[derive(Clone, Copy)]
pub struct Bytes {
    pub no: u8,
    pub bytes: [u8; 16],
}

#[repr(C)]
#[derive(Clone, Copy)]
pub struct Cycle {
    pub no: u8,
    pub cycle: u64,
}

#[repr(C)]
#[derive(Clone, Copy)]
pub struct Count {
    pub no: u8,
    pub count: usize,
}

#[repr(C)]
#[derive(Clone, Copy)]
pub struct Flag {
    pub no: u8,
    pub yes: bool,
}

#[repr(C)]
#[derive(Clone, Copy)]
pub struct Outputs {
    pub no: u8,
    pub a: f32,
    pub b: f32,
    pub c: f32,
}

// What one register write changed. 02, request 03.
#[repr(C)]
#[derive(Clone, Copy)]
pub struct Wrote {
    pub no: u8,
    pub changed: bool,
    pub restarted: bool,
}

#[derive(Clone, Copy)]
pub struct Written {
    pub chip: Chip,
    pub answer: Wrote,
}

// How many of the applied writes changed a byte, and how many restarted the envelope.
#[repr(C)]
#[derive(Clone, Copy)]
pub struct Counts {
    pub no: u8,
    pub changed: u32,
    pub restarted: u32,
}

#[derive(Clone, Copy)]
pub struct Applied {
    pub chip: Chip,
    pub answer: Counts,
}

#[repr(C)]
#[derive(Clone, Copy)]
pub struct Sample {
    pub no: u8,
    pub word: u16,
    pub ticks: u64,
    pub changed: u32,
    pub restarted: u32,
}

#[derive(Clone, Copy)]
pub struct Sampled {
    pub chip: Chip,
    pub answer: Sample,
}

#[repr(C)]
#[derive(Clone, Copy)]
pub struct Played {
    pub no: u8,
    pub words: usize,
    pub ticks: u64,
    pub changed: u32,
    pub restarted: u32,
}

#[derive(Clone, Copy)]
pub struct Blocked {
    pub chip: Chip,
    pub answer: Played,
}

pub fn accepted(chip: Chip) -> Answered
    ensures { result ≡ answered accepted chip }
{
    Answered {
        chip,
        no: refusals::ACCEPTED,
    }
}

pub fn refused(chip: Chip) -> Answered
    ensures { result ≡ answered out_of_range chip }
{
    Answered {
        chip,
        no: refusals::OUT_OF_RANGE,
    }
}
