// The dump player's first line: a refusal, or the total of words. 01, "The dump player".
#![tactic(auto)]

ghost use Rattle.std.specs.Prelude.{◌≡◌, ◌≤◌, length};
ghost use Rattle.text_put.specs.Text.{laid, place_after};
ghost use Rattle.dump_output.specs.Printed.{first_line};

use dump::Verdict;

// The first line at the buffer's start, and its length; where it does not fit, nothing is written. 32 bytes are room enough.
#[tactic(auto, unfolding(crate::specs::Printed::first_line))]
pub fn put_first_line(out: &mut [u8], verdict: Verdict) -> usize
    ensures place { result ≡ place_after out.old 0 (first_line verdict) }
    ensures text { out.new ≡ laid out.old 0 (first_line verdict) }
    ensures few { length (first_line verdict) ≤ 32 }
{
    if verdict.no == refusals::ACCEPTED {
        return output_lines::put_total(out, verdict.words as u32 * verdict.frames as u32);
    }
    output_lines::put_refusal(out, verdict.no, verdict.line)
}
