// Which call a line is, by its words.
use crate::settings::setting_of;
use crate::{Apply, Call, Change, Line, Look};
use script_words::{decimal, float, hex};
use std::str;

// one word more than a call answers, so that a script can ask for too many
const WORDS: usize = 65_537;

// One space separates the words; none where the line has another form.
pub fn line_of(line: &[u8]) -> Option<Line> {
    if line.starts_with(b"#") {
        return Some(Line::Comment);
    }
    call_of(str::from_utf8(line).ok()?).map(Line::Call)
}

fn call_of(line: &str) -> Option<Call> {
    let mut words = line.split(' ');
    let name = words.next()?;
    match (words.next(), words.next(), words.next(), words.next()) {
        (None, _, _, _) => alone(name),
        (Some(x), None, _, _) => with_one(name, x),
        (Some(x), Some(y), None, _) => with_two(name, x, y),
        (Some(x), Some(y), Some(z), None) => with_three(name, x, y, z),
        _ => None,
    }
}

fn alone(name: &str) -> Option<Call> {
    match name {
        "default" => Some(Call::Default),
        "reset" => Some(Call::Change(Change::Reset)),
        "dump" => Some(Call::Look(Look::Registers)),
        "get_cycle" => Some(Call::Look(Look::Cycle)),
        "flush" => Some(Call::Apply(Apply::Flush)),
        "pending" => Some(Call::Look(Look::Pending)),
        "trigger" => Some(Call::Change(Change::Trigger)),
        "outputs" => Some(Call::Look(Look::Outputs)),
        "word" => Some(Call::Word),
        _ => None,
    }
}

fn with_one(name: &str, x: &str) -> Option<Call> {
    match name {
        "load" => Some(Call::Apply(Apply::Load(hex(x, 32)?.to_be_bytes()))),
        "block" => decimal(x).filter(|count| *count <= WORDS).map(Call::Block),
        "read" => decimal(x).map(|register| Call::Look(Look::Register(register))),
        "read_port" => decimal(x).map(|port| Call::Look(Look::Port(port))),
        "waiting" => decimal(x).map(Call::Waiting),
        "irq" => flag(x).map(|on| Call::Change(Change::Irq(on))),
        "inside_irq" => flag(x).map(|inside| Call::Change(Change::InsideIrq(inside))),
        "lent" => flag(x).map(Call::Lent),
        "cycle" => decimal(x).map(|cycle| Call::Change(Change::Cycle(cycle))),
        "sync" => decimal(x).map(|cycle| Call::Change(Change::Sync(cycle))),
        "muted" => decimal(x).map(|channel| Call::Look(Look::Muted(channel))),
        _ => None,
    }
}

fn flag(word: &str) -> Option<bool> {
    match word {
        "0" => Some(false),
        "1" => Some(true),
        _ => None,
    }
}

fn with_two(name: &str, x: &str, y: &str) -> Option<Call> {
    match name {
        "new" => Some(Call::New(decimal(x)?, decimal(y)?)),
        "mute" => Some(Call::Change(Change::Mute(decimal(x)?, flag(y)?))),
        "drum" => Some(Call::Change(Change::Drum(decimal(x)?, drum(y)?))),
        "set" => setting_of(x, y).map(Call::Set),
        "write" => Some(Call::Apply(Apply::Write(decimal(x)?, decimal(y)?))),
        "port" => Some(Call::Change(Change::Port(decimal(x)?, decimal(y)?))),
        "port_now" => Some(Call::Apply(Apply::PortNow(decimal(x)?, decimal(y)?))),
        _ => None,
    }
}

// `off`, or the eight hex digits of an f32.
fn drum(word: &str) -> Option<Option<f32>> {
    if word == "off" {
        return Some(None);
    }
    Some(Some(float(u32::try_from(hex(word, 8)?).ok()?)))
}

fn with_three(name: &str, x: &str, y: &str, z: &str) -> Option<Call> {
    match name {
        "make" => Some(Call::Make(decimal(x)?, decimal(y)?, decimal(z)?)),
        _ => None,
    }
}
