// How far the player's output has been handed out: what is next, and how much of it a buffer takes. 01, "The dump player".
#![tactic(auto)]

ghost use Rattle.std.specs.Prelude.{◌≡◌, ◌≤◌, ◌<◌, min};
ghost use Rattle.dump_progress.specs.Progress.{first_line_given, frame_begins, frame_due, words_for, words_given, words_in};

// Whether the first line has been handed out, how many frames have begun, and how many words of the last one are left.
#[derive(Clone, Copy)]
pub struct Progress {
    pub begun: bool,
    pub frames: u16,
    pub left: u16,
}

pub fn first_line_given(p: Progress) -> Progress
    ensures { result ≡ first_line_given p }
{
    Progress {
        begun: true,
        frames: p.frames,
        left: p.left,
    }
}

pub fn frame_due(p: Progress, frames: u16) -> bool
    ensures { result ≡ frame_due frames p }
{
    if p.left > 0 {
        return false;
    }
    p.frames < frames
}

pub fn frame_begins(p: Progress, words: u16) -> Progress
    requires { p.frames < 65535 }
    ensures { result ≡ frame_begins words p }
{
    Progress {
        begun: p.begun,
        frames: p.frames + 1,
        left: words,
    }
}

pub fn words_for(p: Progress, room: usize) -> usize
    ensures { result ≡ words_for room p }
{
    words_in(p.left as u32, room)
}

// A word's line has six bytes at most.
pub fn words_in(left: u32, room: usize) -> usize
    ensures { result ≡ words_in room left }
{
    fewer(fewer(left as usize, 4096), room / 6)
}

pub fn words_given(p: Progress, n: usize) -> Progress
    requires { n ≤ p.left }
    ensures { result ≡ words_given n p }
{
    Progress {
        begun: p.begun,
        frames: p.frames,
        left: p.left - n as u16,
    }
}

fn fewer(a: usize, b: usize) -> usize
    ensures { result ≡ min a b }
{
    if a < b { a } else { b }
}
