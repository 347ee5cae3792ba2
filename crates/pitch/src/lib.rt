// Nearest period for a wanted note: the period whose tone is nearest to a pitch, and a check of proposed periods. 02, request 12.
#![tactic(auto)]

ghost use Rattle.std.specs.Prelude.{true, ◌≡◌, length};
ghost use Rattle.laws.specs.All.{every};
ghost use Rattle.pitch.specs.Pitch.{are_nearest, checked, each_nearest, found, master_in, nearest_period, nearest_to, pitch_in};
ghost use Rattle.pitch.specs.Claims.{MasterIn, PitchIn};

use refusals::Refusal;

// In hertz. A chip takes lower masters too (01); `clocks` has its limit, which is the higher one.
pub const LOWEST_MASTER: u32 = 8;

pub const HIGHEST_MASTER: u32 = 1_073_741_823;

// An answer of `nearest_period` as numbers. `no` 0 is accepted. Any other is the refusal, and the period is 0.
#[derive(Clone, Copy)]
pub struct Found {
    pub no: u8,
    pub period: u16,
}

impl From<Result<u16, Refusal>> for Found {
    ghost from_gives = { λ answer r. r ≡ found answer };

    #[tactic(auto, unfolding(crate::specs::Pitch::found))]
    fn from(answer: Result<u16, Refusal>) -> Found {
        match answer {
            Ok(period) => Found {
                no: refusals::ACCEPTED,
                period,
            },
            Err(why) => Found {
                no: why.number(),
                period: 0,
            },
        }
    }
}

// The same of `are_nearest`: of a refusal `yes` is false.
#[derive(Clone, Copy)]
pub struct Checked {
    pub no: u8,
    pub yes: bool,
}

impl From<Result<bool, Refusal>> for Checked {
    ghost from_gives = { λ answer r. r ≡ checked answer };

    #[tactic(auto, unfolding(crate::specs::Pitch::checked))]
    fn from(answer: Result<bool, Refusal>) -> Checked {
        match answer {
            Ok(yes) => Checked {
                no: refusals::ACCEPTED,
                yes,
            },
            Err(why) => Checked {
                no: why.number(),
                yes: false,
            },
        }
    }
}

// The pitch is in thousandths of a hertz.
pub fn nearest_period(master: u32, pitch: u32) -> Result<u16, Refusal>
    ensures { result ≡ nearest_period master pitch }
{
    if !master_in(master) {
        return Err(Refusal::MasterTooHigh);
    }
    if !pitch_in(pitch) {
        return Err(Refusal::PitchOutOfRange);
    }
    Ok(nearest(master, pitch))
}

// Whether each period is the nearest to the pitch at its place.
pub fn are_nearest<'t>(master: u32, pitches: &'t [u32], periods: &'t [u16]) -> Result<bool, Refusal>
    ensures { result ≡ are_nearest master pitches.now periods.now }
{
    if !master_in(master) {
        return Err(Refusal::MasterTooHigh);
    }
    if pitches.len() != periods.len() {
        return Err(Refusal::ListsDiffer);
    }
    if !pitches_in(pitches) {
        return Err(Refusal::PitchOutOfRange);
    }
    Ok(each_nearest(master, pitches, periods))
}

fn master_in(master: u32) -> bool
    ensures { result ≡ master_in master }
{
    if master < LOWEST_MASTER {
        return false;
    }
    master <= HIGHEST_MASTER
}

fn pitch_in(pitch: u32) -> bool
    ensures { result ≡ pitch_in pitch }
{
    if pitch == 0 {
        return false;
    }
    pitch <= 20_000_000
}

// Tones fall as periods rise, so the nearest is one of the two around the quotient, or an end of the range. Of those two the tones lie `over`
// and `step - over` from the pitch, each over its own period.
fn nearest(master: u32, pitch: u32) -> u16
    requires master_in { MasterIn master }
    requires pitch_in { PitchIn pitch }
    ensures { result ≡ nearest_to master pitch }
{
    let wanted = 1000 * master as u64;
    let step = 16 * pitch as u64;
    let below = wanted / step;
    if below < 2 {
        return 2;
    }
    if below >= 4095 {
        return 4095;
    }
    let above = below + 1;
    let over = wanted % step;
    if over * above <= (step - over) * below {
        below as u16
    } else {
        above as u16
    }
}

fn pitches_in(pitches: &[u32]) -> bool
    ensures { result ≡ every pitch_in pitches.now }
{
    for &pitch in pitches {
        if !pitch_in(pitch) {
            return false;
        }
    }
    true
}

fn each_nearest<'t>(master: u32, pitches: &'t [u32], periods: &'t [u16]) -> bool
    requires master_in { MasterIn master }
    requires pitches_len { length pitches.now ≡ length periods.now }
    requires pitches_value { every pitch_in pitches.now ≡ true }
    ensures { result ≡ each_nearest master pitches.now periods.now }
{
    for (i, &pitch) in pitches.iter().enumerate() {
        if periods[i] != nearest(master, pitch) {
            return false;
        }
    }
    true
}
