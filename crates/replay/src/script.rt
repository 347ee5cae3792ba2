// A script of any length, line by line.
use crate::after::After;
use crate::desk::called;
use crate::lent::Lent;
use crate::value::ByValue;
use arrayvec::ArrayString;
use script_calls::{Call, Line, line_of};
use script_lines::Lines;
use script_state::Shown;
use std::fmt::Write;
use std::io;
use std::io::Read;

// More than an answer and a state take.
const ROOM: usize = 2048;

// What is printed and not yet written out.
type Page = ArrayString<65536>;

// A proved loop has to end, and nothing says that the input does: there are as many turns as no run uses up.
pub fn play(rt: &impl Print, source: &mut impl Read) -> io::Result<()> {
    let mut lines = Lines::new();
    let mut page = Page::new();
    let mut words = [0u16; 65537];
    let mut chip = calls::new();
    let mut lent = false;
    for _ in 0..u64::MAX {
        match lines.next_line().map(line_of) {
            // What was printed is written out before a read, which may wait.
            None => {
                flush(rt, &mut page)?;
                if !lines.read_more(source) {
                    break;
                }
            }
            Some(None) => {
                flush(rt, &mut page)?;
                return rt.write_all(b"bad\n");
            }
            Some(Some(Line::Comment)) => (),
            Some(Some(Line::Call(call))) => {
                if let Call::Lent(next) = call {
                    lent = next;
                }
                let after = if lent {
                    called::<Lent>(chip, call, &mut words)
                } else {
                    called::<ByValue>(chip, call, &mut words)
                };
                print(rt, &mut page, &after)?;
                chip = after.chip;
            }
        }
    }
    Ok(())
}

// A page that is nearly full is written out before.
fn print(rt: &impl Print, page: &mut Page, after: &After<'_>) -> io::Result<()> {
    if page.remaining_capacity() < ROOM {
        flush(rt, page)?;
    }
    let said = after.said;
    let state = Shown(&after.chip);
    writeln!(page, "{said}\n{state}")?;
    Ok(())
}

fn flush(rt: &impl Print, page: &mut Page) -> io::Result<()> {
    rt.write_all(page.as_bytes())?;
    page.clear();
    Ok(())
}
