// The room that a dump is read into. 01, "The dump player": a dump longer than 65,536 bytes is refused whatever it holds.
#![tactic(auto)]

ghost use Rattle.std.specs.Prelude.{◌≡◌, length, replicate};
ghost use Rattle.dump_input.specs.Enough.{enough};

// One byte past the longest dump: what does not fit need not be read. (`notes_output::room` differs in its size; the size as a parameter would
// have each caller say it.)
pub fn room() -> [u8; 65537]
    ensures zeros { result ≡ replicate enough 0 }
    ensures long { enough ≡ length result }
{
    [0; 65537]
}
