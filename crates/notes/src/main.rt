// A list of pitches on standard input, their periods on standard output. 02, request 12.
#![tactic(auto)]

ghost use Rattle.std.specs.Prelude.{◌≡◌};
ghost use Rattle.notes_output.specs.Printed.{printed};

use failures::failed;
use std::io;
use std::process::ExitCode;

fn main(rt: HostRuntime) -> ExitCode {
    let mut input = dump_input::room();
    let got = standard_input::read_into(&mut rt.stdin(), &mut input);
    if let Some(why) = got.failed {
        return failed(&rt, "notes: standard input", why);
    }
    match tell(&rt, &input[..got.bytes]) {
        Ok(()) => ExitCode::SUCCESS,
        Err(why) => failed(&rt, "notes: standard output", why),
    }
}

fn tell(rt: &impl Print, text: &[u8]) -> io::Result<()> {
    let mut out = notes_output::room();
    let n = notes_output::answer(text, &mut out);
    write_whole(rt, text, &out[..n])
}

// What is proved ends here: one write is asked for the whole output. That it is written is the kit's.
fn write_whole(rt: &impl Print, text: &[u8], bytes: &[u8]) -> io::Result<()>
    requires { bytes.now ≡ printed text.now }
{
    rt.write_all(bytes)
}
