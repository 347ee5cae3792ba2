// The first and the last line of what is printed of a capture. 02, request 01.
#![tactic(auto)]

ghost use Rattle.std.specs.Prelude.{◌≡◌, ◌≤◌, length};
ghost use Rattle.text_put.specs.Text.{laid, place_after};
ghost use Rattle.capture_output.specs.Ends.{first_line, last_line, line_of};

use capture::Captured;

// Each stands at the buffer's start, and its length comes back; where it does not fit, nothing is written. 32 bytes are room enough.
pub fn put_first_line(out: &mut [u8], verdict: Captured) -> usize
    ensures place { result ≡ place_after out.old 0 (first_line verdict) }
    ensures text { out.new ≡ laid out.old 0 (first_line verdict) }
    ensures few { length (first_line verdict) ≤ 32 }
{
    if verdict.no == refusals::ACCEPTED {
        return output_lines::put_total(out, verdict.words);
    }
    output_lines::put_refusal(out, verdict.no, verdict.line)
}

// `left` writes of `writes` are left; a number other than 0, as the chip answers it, is that of the first of them, which was refused.
pub fn put_last_line(out: &mut [u8], no: u8, writes: u16, left: u16) -> usize
    ensures place { result ≡ place_after out.old 0 (last_line no writes left) }
    ensures text { out.new ≡ laid out.old 0 (last_line no writes left) }
{
    if no == refusals::ACCEPTED {
        return output_lines::put_left(out, left);
    }
    output_lines::put_refusal(out, no, line_of(writes, left))
}

// The `at=` line of the first of the writes that are left.
fn line_of(writes: u16, left: u16) -> u32
    ensures { result ≡ line_of writes left }
{
    5 + 3 * u32::from(writes.saturating_sub(left))
}
