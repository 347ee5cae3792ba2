// Numbers a call can answer. 01's table, with 02's later numbers; specs/Numbers.antt has the same numbers for the definitions.
#![tactic(auto)]

ghost use Rattle.std.specs.Prelude.{◌≡◌};
ghost use Rattle.refusals.specs.Numbers.{answer_no, number_of};

// Why a call refuses. 01's number is the variant's.
#[derive(Clone, Copy, Debug, PartialEq, Eq, Hash)]
pub enum Refusal {
    MasterTooHigh = 1,
    RateZero = 2,
    RateTooHigh = 3,
    QueueFull = 4,
    BlockTooLong = 5,
    BlockTooLate = 6,
    NoSuchChannel = 7,
    LineNotOfForm = 8,
    SizeOutOfRange = 9,
    BytesAfterTheEnd = 10,
    DumpTooLong = 11,
    StampLower = 12,
    NoSuchVariant = 13,
    PitchOutOfRange = 19,
    ListsDiffer = 20,
    OutOfRange = 22,
}

// The numbers of answers that C reads too: 0 is accepted.
pub const ACCEPTED: u8 = 0;

pub const QUEUE_FULL: u8 = Refusal::QueueFull as u8;

pub const NO_SUCH_CHANNEL: u8 = Refusal::NoSuchChannel as u8;

pub const LINE_NOT_OF_FORM: u8 = Refusal::LineNotOfForm as u8;

pub const OUT_OF_RANGE: u8 = Refusal::OutOfRange as u8;

impl Refusal {
    pub fn number(self) -> u8
        ensures { result ≡ number_of self }
    {
        self as u8
    }
}

// What an answer's number says of a test.
pub fn answer_no(tested: Result<(), Refusal>) -> u8
    ensures { result ≡ answer_no tested }
{
    match tested {
        Ok(()) => ACCEPTED,
        Err(why) => why.number(),
    }
}
