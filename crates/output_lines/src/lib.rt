// The lines around the words: a refusal, the number of words, the writes that are left. 01, "The dump player"; 02, request 01.
#![tactic(auto)]

ghost use Rattle.std.specs.Prelude.{◌≡◌, ◌++◌, ◌≤◌, length};
ghost use Rattle.text_put.specs.Text.{laid, number_text, place_after};
ghost use Rattle.output_lines.specs.Lines.{left_text, refusal_text, total_text};

// Each stands at the buffer's start, and its length comes back; where it does not fit, nothing is written. 32 bytes are room enough.
pub fn put_refusal(out: &mut [u8], no: u8, line: u32) -> usize
    ensures place { result ≡ place_after out.old 0 (refusal_text no line) }
    ensures text { out.new ≡ laid out.old 0 (refusal_text no line) }
{
    let mut bytes = [0u8; 32];
    let whole: &mut [u8] = &mut bytes;
    let number = text_put::put_bytes(whole, 0, b"refused=");
    let space = text_put::put_number(whole, number, no as u64, b' ');
    let value = text_put::put_bytes(whole, space, b"line=");
    let n = text_put::put_number(whole, value, line as u64, b'\n');
    text_put::put_bytes(out, 0, &bytes[..n])
}

#[tactic(auto, unfolding(crate::specs::Lines::total_text))]
pub fn put_total(out: &mut [u8], words: u32) -> usize
    ensures place { result ≡ place_after out.old 0 (total_text words) }
    ensures text { out.new ≡ laid out.old 0 (total_text words) }
{
    put_named(out, b"words=", words as u64)
}

#[tactic(auto, unfolding(crate::specs::Lines::left_text))]
pub fn put_left(out: &mut [u8], writes: u16) -> usize
    ensures place { result ≡ place_after out.old 0 (left_text writes) }
    ensures text { out.new ≡ laid out.old 0 (left_text writes) }
{
    put_named(out, b"left=", writes as u64)
}

// A number behind its name. A u64 and its LF leave 11 of 32 bytes for the name.
fn put_named(out: &mut [u8], name: &[u8], number: u64) -> usize
    requires { length name.now ≤ 11 }
    ensures place { result ≡ place_after out.old 0 (name.now ++ number_text number 10) }
    ensures text { out.new ≡ laid out.old 0 (name.now ++ number_text number 10) }
{
    let mut bytes = [0u8; 32];
    let whole: &mut [u8] = &mut bytes;
    let value = text_put::put_bytes(whole, 0, name);
    let n = text_put::put_number(whole, value, number, b'\n');
    text_put::put_bytes(out, 0, &bytes[..n])
}
