// The public calls of the tables, generators and mixer of the crate, on ordinary and extreme values.
//
// What it must write, in `stdout`, comes from the crate's own tables.rs, generators.rs and mixer.rs, run:
// `oracle/leaves` prints it again.
#![tactic(auto)]

mod channels;
mod lines;
mod runs;
mod shown;

use std::io;

fn main(rt: HostRuntime) -> io::Result<()> {
    runs::tables(&rt)?;
    lines::tones(&rt)?;
    lines::noises(&rt)?;
    lines::envelopes(&rt)?;
    runs::generators(&rt)?;
    lines::gates(&rt)?;
    runs::levels(&rt)?;
    channels::levels(&rt)?;
    channels::channel(&rt)?;
    channels::drums(&rt)?;
    channels::words(&rt)?;
    println!(rt; "")
}
