// Plays a script of calls on standard input, and prints after each call its answer and all that a caller can see. The script's form
// and what is printed are those of oracle/README.md, so that the crate can be run beside it.
//
// `stdin` and `stdout` hold a script and what the crate answers to it; the head of `stdin` says how they are made.
#![tactic(auto)]

mod after;
mod block;
mod desk;
mod lent;
mod said;
mod script;
mod value;

use std::io;

fn main(rt: HostRuntime) -> io::Result<()> {
    script::play(&rt, &mut rt.stdin())
}
