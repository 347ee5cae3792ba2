// What `set` sets: one field of the record, and its new value.
use script_words::decimal;

// A tone's channel is 0, 1 or 2, a register 0 to 13.
#[derive(Clone, Copy)]
pub enum Setting {
    Master(u32),
    Rate(u32),
    Internal(u32),
    Cycles(u64),
    Variant(u8),
    Accumulator(u32),
    Stamp(u64),
    Start(u64),
    Select(u8),
    Register(usize, u8),
    Counter(usize, u16),
    Period(usize, u16),
    Edges(usize, u32),
    NoiseCounter(u16),
    NoisePeriod(u8),
    NoiseRegister(u32),
    NoiseOutput(u32),
    EnvelopeCounter(u16),
    EnvelopePeriod(u16),
    EnvelopePosition(i32),
    EnvelopeOffset(u16),
    GatesTone(u32),
    GatesNoise(u32),
    Head(usize),
    Count(usize),
    WaitingRegister(u8),
}

// None where there is no such field, or where it cannot hold the value.
pub fn setting_of(field: &str, value: &str) -> Option<Setting> {
    match field {
        "master" => decimal(value).map(Setting::Master),
        "rate" => decimal(value).map(Setting::Rate),
        "internal" => decimal(value).map(Setting::Internal),
        "cycles" => decimal(value).map(Setting::Cycles),
        "variant" => decimal(value).map(Setting::Variant),
        "accumulator" => decimal(value).map(Setting::Accumulator),
        "stamp" => decimal(value).map(Setting::Stamp),
        "start" => decimal(value).map(Setting::Start),
        "select" => decimal(value).map(Setting::Select),
        "head" => decimal(value).map(Setting::Head),
        "count" => decimal(value).map(Setting::Count),
        "waiting_register" => decimal(value).map(Setting::WaitingRegister),
        "gates_tone" => decimal(value).map(Setting::GatesTone),
        "gates_noise" => decimal(value).map(Setting::GatesNoise),
        _ => of_generators(field, value),
    }
}

fn of_generators(field: &str, value: &str) -> Option<Setting> {
    match field {
        "noise_counter" => decimal(value).map(Setting::NoiseCounter),
        "noise_period" => decimal(value).map(Setting::NoisePeriod),
        "noise_register" => decimal(value).map(Setting::NoiseRegister),
        "noise_output" => decimal(value).map(Setting::NoiseOutput),
        "envelope_counter" => decimal(value).map(Setting::EnvelopeCounter),
        "envelope_period" => decimal(value).map(Setting::EnvelopePeriod),
        "envelope_position" => decimal(value).map(Setting::EnvelopePosition),
        "envelope_offset" => decimal(value).map(Setting::EnvelopeOffset),
        _ => of_tone(field, value).or_else(|| of_register(field, value)),
    }
}

fn of_tone(field: &str, value: &str) -> Option<Setting> {
    let (channel, part) = field.split_once('_')?;
    let channel = ["A", "B", "C"].iter().position(|name| *name == channel)?;
    match part {
        "counter" => Some(Setting::Counter(channel, decimal(value)?)),
        "period" => Some(Setting::Period(channel, decimal(value)?)),
        "edges" => Some(Setting::Edges(channel, decimal(value)?)),
        _ => None,
    }
}

// R0 to R13
fn of_register(field: &str, value: &str) -> Option<Setting> {
    let register = decimal(field.strip_prefix('R')?)?;
    if register > 13 {
        return None;
    }
    Some(Setting::Register(register, decimal(value)?))
}
