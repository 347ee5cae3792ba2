// One word on the parts of a host's record, by value. 01, "One tick, one word".
#![tactic(auto)]

ghost use Rattle.std.specs.Prelude.{◌≡◌, true};
ghost use Rattle.c_words.specs.Words.{channels_of, left_of, record_word};
ghost use Rattle.queue.specs.Waiting.{ring};
ghost use Rattle.steps_words.specs.WordSteps.{chip_at, Playable, word_step};

use answers::Sample;
use c_record::RecordChannel;
use channel::Channel;
use chip::Clocks;
use registers::Voice;
use three_channels::Channels;

// What a word changes of a host's record, to store, and the call's answer.
#[derive(Clone, Copy)]
pub struct RecordWord {
    pub voice: Voice,
    pub a: RecordChannel,
    pub b: RecordChannel,
    pub c: RecordChannel,
    pub accumulator: u32,
    pub start: u64,
    pub head: usize,
    pub count: usize,
    pub answer: Sample,
}

// The step of `steps_words`, on the parts of a host's record.
pub fn compute_next_sample<'t>(
    stamps: &'t [u64; 256],
    registers: &'t [u8; 256],
    values: &'t [u8; 256],
    ok: bool,
    clocks: Clocks,
    variant: u8,
    voice: Voice,
    a: RecordChannel,
    b: RecordChannel,
    c: RecordChannel,
    accumulator: u32,
    start: u64,
    head: usize,
    count: usize,
) -> RecordWord
    requires { ok ≡ true → Playable (chip_at clocks variant voice (channels_of a b c) accumulator start (ring stamps.now registers.now values.now head count)) }
    ensures { result ≡ record_word a b c (word_step ok (chip_at clocks variant voice (channels_of a b c) accumulator start (ring stamps.now registers.now values.now head count))) }
{
    let channels = Channels {
        a: Channel::from(a),
        b: Channel::from(b),
        c: Channel::from(c),
    };
    let r = steps_words::compute_next_sample(
        stamps,
        registers,
        values,
        ok,
        clocks,
        variant,
        voice,
        channels,
        accumulator,
        start,
        head,
        count,
    );
    let after = r.voice;
    let channels = r.channels;
    let answer = r.answer;
    RecordWord {
        voice: after,
        a: left(answer.no, a, channels.a),
        b: left(answer.no, b, channels.b),
        c: left(answer.no, c, channels.c),
        accumulator: r.accumulator,
        start: r.start,
        head: r.head,
        count: r.count,
        answer,
    }
}

// A refused call leaves a channel as it was, in every byte.
#[tactic(auto, unfolding(crate::specs::Words::left_of))]
fn left(no: u8, before: RecordChannel, after: Channel) -> RecordChannel
    ensures { result ≡ left_of no before after }
{
    if no != refusals::ACCEPTED {
        return before;
    }
    RecordChannel::from(after)
}
