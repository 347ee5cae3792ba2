// The writes of a capture, walked: each of three lines, held to the stamp before it. 02, request 01.
#![tactic(auto)]

ghost use Rattle.std.specs.Prelude.{◌≡◌};
ghost use Rattle.capture_body.specs.Walk.{writes_read};

use capture_writes::write_at;
use dump_clocks::LineRefused;
use refusals::Refusal;

// A refusal names its line of the text: write k, the first being 0, has its `at=` on line 5 + 3 × k.
pub fn writes_read(text: &[u8], writes: u16, body: usize) -> Result<(), LineRefused>
    ensures { result ≡ writes_read text.now writes 5 0 body }
{
    let mut before = 0;
    let mut at = body;
    for k in 0..writes {
        match write_at(text, before, at) {
            Ok(lines) => {
                before = lines.write.stamp;
                at = lines.next;
            }
            Err(refused) => {
                return Err(LineRefused {
                    why: refused.why,
                    line: 5 + 3 * k as u32 + refused.line,
                });
            }
        }
    }
    if at < text.len() {
        return Err(LineRefused {
            why: Refusal::BytesAfterTheEnd,
            line: 5 + 3 * writes as u32,
        });
    }
    Ok(())
}
