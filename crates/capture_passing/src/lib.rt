// What is due before a word, passed out of the text; and how many words need nothing passed before them. 02, request 01.
#![tactic(auto)]

ghost use Rattle.std.specs.Prelude.{◌≡◌};
ghost use Rattle.capture_writes.specs.Writes.{write_at};
ghost use Rattle.capture_passing.specs.Due.{free_words, pass_due_from, pass_from, stopped};

use block_limits::accept_block;
use capture_writes::write_at;
use chip::Chip;

// The chip, and of the writes yet to be passed the next one's place and how many they are. `no` is a number as a call of the chip answers it:
// 0 says that what was due has been passed.
#[derive(Clone, Copy)]
pub struct Passing {
    pub chip: Chip,
    pub at: usize,
    pub writes: u16,
    pub no: u8,
}

// Of `writes` writes from a place on, those stamped at or before the next word's end.
pub fn pass_due(chip: Chip, text: &[u8], at: usize, writes: u16) -> Passing
    ensures { result ≡ pass_due_from text.now writes at chip }
{
    if !chip::in_range(chip) {
        return stopped(chip, at, writes, refusals::OUT_OF_RANGE);
    }
    let start = chip.core.start;
    let cycles = chip.core.clocks.cycles;
    match accept_block(start, cycles, 1) {
        Ok(()) => pass_until(chip, text, at, writes, start + cycles),
        Err(why) => stopped(chip, at, writes, why.number()),
    }
}

fn pass_until(chip: Chip, text: &[u8], at: usize, writes: u16, end: u64) -> Passing
    ensures { result ≡ pass_from text.now end writes at chip }
{
    let mut chip = chip;
    let mut at = at;
    for k in 0..writes {
        match write_at(text, 0, at) {
            Err(refused) => return stopped(chip, at, writes - k, refused.why.number()),
            Ok(lines) => {
                if !bus_writes::is_due(lines.write, end) {
                    return stopped(chip, at, writes - k, refusals::ACCEPTED);
                }
                let passed = bus::pass_write(chip, lines.write);
                if passed.no != refusals::ACCEPTED {
                    return stopped(chip, at, writes - k, passed.no);
                }
                chip = passed.chip;
                at = lines.next;
            }
        }
    }
    stopped(chip, at, 0, refusals::ACCEPTED)
}

fn stopped(chip: Chip, at: usize, writes: u16, no: u8) -> Passing
    ensures { result ≡ stopped chip at writes no }
{
    Passing {
        chip,
        at,
        writes,
        no,
    }
}

// Of `words` words those that end before the next write's stamp: nothing need be passed before them. All, where no write is left.
pub fn free_words(text: &[u8], at: usize, writes: u16, start: u64, cycles: u64, words: u32) -> u32
    ensures { result ≡ free_words text.now writes at start cycles words }
{
    if writes == 0 {
        return words;
    }
    bus_writes::words_before(start, cycles, stamp_at(text, at)).min(u64::from(words)) as u32
}

// The stamp of the write at a place. No line of a checked capture is bad; 0 would stand for a bad one's.
#[tactic(auto, unfolding(capture_writes::specs::Writes::write_at))]
fn stamp_at(text: &[u8], at: usize) -> u64
    ensures { result ≡ (write_at text.now 0 at).write.stamp }
{
    match write_at(text, 0, at) {
        Ok(lines) => lines.write.stamp,
        Err(_) => 0,
    }
}
