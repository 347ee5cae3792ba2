// A dump reader carries the text and its place from line to line.
#![tactic(auto)]

ghost use Rattle.std.specs.Prelude.{◌≡◌};
ghost use Rattle.text_lines.specs.Lines.{line_at};
ghost use Rattle.dump_reader.specs.Header.{first_lines};

use text_lines::Line;

#[derive(Clone, Copy)]
pub struct DumpReader<'a> {
    pub text: &'a [u8],
    pub at: usize,
}

pub fn reader<'a>(text: &'a [u8]) -> DumpReader<'a>
    ensures { (result.text ≡ text.entry) × (result.at ≡ 0) }
{
    DumpReader { text, at: 0 }
}

// The line at the reader's place; the reader goes on to the next.
pub fn next_line<'s, 'a>(r: &'s mut DumpReader<'a>) -> Line
    ensures { (result ≡ line_at r.old.text.now r.old.at)
        × (r.new.text ≡ r.old.text)
        × (r.new.at ≡ result.next) }
{
    let l = text_lines::line_at(r.text, r.at);
    r.at = l.next;
    l
}

// The four header lines, as a reader meets them.
#[derive(Clone, Copy)]
pub struct FirstLines {
    pub one: Line,
    pub two: Line,
    pub three: Line,
    pub four: Line,
}

#[tactic(auto, unfolding(crate::specs::Header::first_lines))]
pub fn first_lines(text: &[u8]) -> FirstLines
    ensures { result ≡ first_lines text.now }
{
    let mut r = reader(text);
    let one = next_line(&mut r);
    let two = next_line(&mut r);
    let three = next_line(&mut r);
    let four = next_line(&mut r);
    FirstLines {
        one,
        two,
        three,
        four,
    }
}
