// What a program says on standard error where its input or its output failed, and the status that it ends with.
#![tactic(auto)]

ghost use Rattle.std.specs.Prelude.{◌≡◌};
ghost use Rattle.std.specs.Process.{exit_status};

use std::alloc::{AllocError, Global};
use std::io::Error;
use std::process::ExitCode;

// What failed and why, on a line. A line that cannot be written is let go: the status says it too.
pub fn failed(rt: &(impl Eprint + AllocGlobal), what: &str, why: Error) -> ExitCode
    ensures { exit_status result ≡ 2 }
{
    let _ = match reason(rt.alloc(), why) {
        Ok(reason) => eprintln!(rt; "{what}: {reason}"),
        Err(_) => eprintln!(rt; "{what}: {why}"),
    };
    ExitCode::from(2)
}

// The error's text without its number.
fn reason(alloc: Global, why: Error) -> Result<String, AllocError> {
    let text = why.to_string(alloc)?;
    match text.as_str().split_once(" (os error ") {
        Some((reason, _)) => String::from_str(alloc, reason),
        None => Ok(text),
    }
}
