// One line of a text, and its value. Nothing here knows what the text is for; everything runs over (text, place), and nothing is copied.
#![tactic(auto)]

ghost use Rattle.std.specs.Prelude.{◌≡◌};
ghost use Rattle.text_lines.specs.Lines.{line_at, value_at};

// Where a line's bytes start and end, where the next line starts, and whether an LF ends this one.
#[derive(Clone, Copy)]
pub struct Line {
    pub start: usize,
    pub end: usize,
    pub next: usize,
    pub whole: bool,
}

pub fn line_at(text: &[u8], at: usize) -> Line
    ensures { result ≡ line_at text.now at }
{
    let rest = text.get(at..).unwrap_or(&[]);
    match rest.iter().position(|b| *b == b'\n') {
        Some(length) => Line {
            start: at,
            end: at + length,
            next: at + length + 1,
            whole: true,
        },
        None => Line {
            start: at,
            end: at + rest.len(),
            next: at + rest.len(),
            whole: false,
        },
    }
}

// The stretch of the text between the key and the LF; an empty one where the line is missing or has another key.
pub fn value_at<'a>(key: &[u8], text: &'a [u8], at: usize) -> &'a [u8]
    ensures { result.now ≡ value_at key.now text.now at }
{
    let line = line_at(text, at);
    if !line.whole {
        return &[];
    }
    text[at..line.end].strip_prefix(key).unwrap_or(&[])
}
