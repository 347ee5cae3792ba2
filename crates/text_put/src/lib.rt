// Bytes and numbers as text, put into a lent buffer at a place. Nothing here knows what the text is for.
#![tactic(auto)]

ghost use Rattle.std.specs.Prelude.{◌≡◌, ◌<◌};
ghost use Rattle.io.specs.Digits.{hex_digit_ascii};
ghost use Rattle.text_put.specs.Text.{decimal_text, hex_text, laid, number_text, place_after};

// The bytes from the place on, and the place after them; where they do not fit, nothing is written and the place stays.
#[tactic(auto, using(crate::proofs::Putting::puts), unfolding(crate::specs::Text::laid, crate::specs::Text::place_after))]
pub fn put_bytes(out: &mut [u8], at: usize, bytes: &[u8]) -> usize
    ensures place { result ≡ place_after out.old at bytes.now }
    ensures text { out.new ≡ laid out.old at bytes.now }
{
    if at > out.len() || bytes.len() > out.len() - at {
        return at;
    }
    out[at..at + bytes.len()].copy_from_slice(bytes);
    at + bytes.len()
}

pub fn put_decimal(out: &mut [u8], at: usize, n: u64) -> usize
    ensures place { result ≡ place_after out.old at (decimal_text n) }
    ensures text { out.new ≡ laid out.old at (decimal_text n) }
{
    let mut text = [0u8; 20];
    let k = io::decimal(n, &mut text);
    put_bytes(out, at, &text[..k])
}

// The number in decimal, and the byte that ends it.
#[tactic(auto, using(crate::proofs::Putting::lengths), unfolding(crate::specs::Text::laid, crate::specs::Text::place_after))]
pub fn put_number(out: &mut [u8], at: usize, n: u64, end: u8) -> usize
    ensures place { result ≡ place_after out.old at (number_text n end) }
    ensures text { out.new ≡ laid out.old at (number_text n end) }
{
    let mut text = [0u8; 20];
    let k = io::decimal(n, &mut text);
    if at > out.len() || k >= out.len() - at {
        return at;
    }
    let last = put_bytes(out, at, &text[..k]);
    out[last] = end;
    last + 1
}

// The last `width` digits of the number in lower-case hex.
#[tactic(auto, using(crate::proofs::Hexing::widths), unfolding(crate::specs::Text::laid, crate::specs::Text::place_after))]
pub fn put_hex(out: &mut [u8], at: usize, n: u64, width: usize) -> usize
    ensures place { result ≡ place_after out.old at (hex_text n width) }
    ensures text { out.new ≡ laid out.old at (hex_text n width) }
{
    if at > out.len() || width > out.len() - at {
        return at;
    }
    let mut rest = n;
    for i in (0..width).rev() {
        out[at + i] = glyph(rest % 16);
        rest /= 16;
    }
    at + width
}

#[tactic(auto, using(std::proofs::lemmas::Bool::Decides::nat_tests))]
fn glyph(digit: u64) -> u8
    requires { digit < 16 }
    ensures { result ≡ hex_digit_ascii digit }
{
    if digit < 10 {
        b'0' + digit as u8
    } else {
        b'a' - 10 + digit as u8
    }
}
