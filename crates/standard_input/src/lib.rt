// Standard input, read into a lent room: the players' first step. 01, "The dump player"; 02, request 01.
#![tactic(auto)]

ghost use Rattle.std.specs.Prelude.{◌≡◌, ◌<◌, IfErr, IfOk, IsNone, length, take};
ghost use Rattle.std.specs.Io.KnownBytes.{Consumes, IsAtEnd};
ghost use Rattle.io.specs.Counts.{IsPrefixLen};

use std::io;
use std::io::Error;

// How many bytes were read, and the error, where the last read failed.
#[derive(Clone, Copy)]
pub struct Read {
    pub bytes: usize,
    pub failed: Option<Error>,
}

impl Read {
    // The count alone, where it is wanted only if no read failed.
    pub fn count(self) -> io::Result<usize>
        ensures ok { IfOk result (λ n. (self.failed ≡ None) × (n ≡ self.bytes)) }
        ensures err { IfErr result (λ why. self.failed ≡ Some why) }
    {
        match self.failed {
            None => Ok(self.bytes),
            Some(why) => Err(why),
        }
    }
}

// Until the room is full, the input ends or a read fails. What the bytes of standard input are no promise can say; those of an input that
// is known stand in the room, and no others are taken. Where no read failed and the room is not full, nothing is left.
pub fn read_into<R: io::Read>(input: &mut R, room: &mut [u8]) -> Read
    ensures length { IsPrefixLen result.bytes room.new }
    ensures text { Consumes (R.remaining input.old) (R.remaining input.new) (take result.bytes room.new) }
    ensures end { IsNone result.failed → result.bytes < length room.new → IsAtEnd (R.remaining input.new) }
{
    let mut bytes = 0;
    let mut failed = None;
    // By hand: std's reads of a whole input say little of what stands in the room once one has failed.
    while bytes < room.len() {
        match input.read(&mut room[bytes..]) {
            Ok(0) => break,
            Ok(more) => bytes += more,
            Err(error) => {
                failed = Some(error);
                break;
            }
        }
    }
    Read { bytes, failed }
}
