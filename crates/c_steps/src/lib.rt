// What the calls change of a lent record, stepped by value, with the record's three drums: an accepted call leaves a drum that is off at
// level 0. `ok` is the test of the record. 01, "Registers and ports" and "Numbers a call can answer".
#![tactic(auto)]

ghost use Rattle.std.specs.Prelude.{◌≡◌};
ghost use Rattle.steps_cycles.specs.CycleSteps.{both_set, stamp_set};
ghost use Rattle.steps_voice.specs.VoiceSteps.{port_written, voiced, voiced_all};
ghost use Rattle.steps_effects.specs.EffectSteps.{flag_set, trigger_set};
ghost use Rattle.steps_channels.specs.ChannelSteps.{drums_set, mutes_set};
ghost use Rattle.c_record.specs.Record.{drum_of};
ghost use Rattle.steps_ports.specs.PortSteps.{port_queued};
ghost use Rattle.c_steps.specs.RecordSteps.{drums_of, record_drummed, record_flagged, record_loaded, record_muted, record_port, record_queued, record_stamped, record_synced, record_triggered, record_voiced, recorded, settled};

use answers::{Counts, Wrote};
use c_record::{RecordDrum, Registers};
use channel::Drum;
use envelope::Envelope;
use generators::Generators;
use registers::Voice;
use steps_channels::{Three, ThreeSet};
use steps_cycles::{Stamped, Synced};
use steps_effects::{Flagged, Triggered};
use steps_ports::PortQueued;
use steps_voice::{PortWritten, Voiced};

// The drums to store, and what the step says.
#[derive(Clone, Copy)]
pub struct RecordStep<S> {
    pub drums: Three<RecordDrum>,
    pub step: S,
}

pub fn set_cpu_cycle(
    ok: bool,
    drums: Three<RecordDrum>,
    stamp: u64,
    cycle: u64,
) -> RecordStep<Stamped>
    ensures { result ≡ record_stamped drums (stamp_set ok stamp cycle) }
{
    let step = steps_cycles::set_cpu_cycle(ok, stamp, cycle);
    recorded(step.no, drums, step)
}

pub fn sync_sample_cycle(
    ok: bool,
    drums: Three<RecordDrum>,
    stamp: u64,
    start: u64,
    cycle: u64,
) -> RecordStep<Synced>
    ensures { result ≡ record_synced drums (both_set ok stamp start cycle) }
{
    let step = steps_cycles::sync_sample_cycle(ok, stamp, start, cycle);
    recorded(step.no, drums, step)
}

pub fn write_register(
    ok: bool,
    drums: Three<RecordDrum>,
    voice: Voice,
    register: u8,
    value: u8,
) -> RecordStep<Voiced<Wrote>>
    ensures { result ≡ record_voiced drums (voiced ok register value voice) }
{
    let step = steps_voice::write_register(ok, voice, register, value);
    recorded(step.answer.no, drums, step)
}

pub fn load_registers(
    ok: bool,
    drums: Three<RecordDrum>,
    voice: Voice,
    registers: Registers,
) -> RecordStep<Voiced<Counts>>
    ensures { result ≡ record_loaded drums (voiced_all ok registers.bytes voice) }
{
    let step = steps_voice::load_registers(ok, voice, registers.bytes);
    recorded(step.answer.no, drums, step)
}

pub fn write_port_immediate(
    ok: bool,
    drums: Three<RecordDrum>,
    voice: Voice,
    selected: u8,
    port: u8,
    value: u8,
) -> RecordStep<PortWritten>
    ensures { result ≡ record_port drums (port_written ok voice selected port value) }
{
    let step = steps_voice::write_port_immediate(ok, voice, selected, port, value);
    recorded(step.answer.no, drums, step)
}

pub fn set_timer_irq_state(
    ok: bool,
    drums: Three<RecordDrum>,
    generators: Generators,
    irq: bool,
    on: bool,
) -> RecordStep<Flagged>
    ensures { result ≡ record_flagged drums (flag_set ok generators irq on) }
{
    let step = steps_effects::set_timer_irq_state(ok, generators, irq, on);
    recorded(step.no, drums, step)
}

pub fn trigger_envelope(
    ok: bool,
    drums: Three<RecordDrum>,
    envelope: Envelope,
) -> RecordStep<Triggered>
    ensures { result ≡ record_triggered drums (trigger_set ok envelope) }
{
    let step = steps_effects::trigger_envelope(ok, envelope);
    recorded(step.no, drums, step)
}

pub fn set_channel_mute(
    ok: bool,
    drums: Three<RecordDrum>,
    mutes: Three<bool>,
    channel: usize,
    muted: bool,
) -> RecordStep<ThreeSet<bool>>
    ensures { result ≡ record_muted drums (mutes_set ok mutes channel muted) }
{
    let step = steps_channels::set_channel_mute(ok, mutes, channel, muted);
    recorded(step.no, drums, step)
}

#[tactic(auto, unfolding(crate::specs::RecordSteps::record_drummed))]
pub fn set_drum_sample_override(
    ok: bool,
    drums: Three<RecordDrum>,
    channel: usize,
    drum: RecordDrum,
) -> ThreeSet<RecordDrum>
    ensures { result ≡ record_drummed drums (drums_set ok (drums_of drums) channel (drum_of drum)) }
{
    let held = Three {
        a: Drum::from(drums.a),
        b: Drum::from(drums.b),
        c: Drum::from(drums.c),
    };
    let step = steps_channels::set_drum_sample_override(ok, held, channel, Drum::from(drum));
    if step.no != refusals::ACCEPTED {
        return ThreeSet {
            values: drums,
            no: step.no,
        };
    }
    let values = Three {
        a: RecordDrum::from(step.values.a),
        b: RecordDrum::from(step.values.b),
        c: RecordDrum::from(step.values.c),
    };
    ThreeSet {
        values,
        no: step.no,
    }
}

pub fn write_port(
    ok: bool,
    drums: Three<RecordDrum>,
    selected: u8,
    stamp: u64,
    head: usize,
    count: usize,
    port: u8,
    value: u8,
) -> RecordStep<PortQueued>
    ensures { result ≡ record_queued drums (port_queued ok selected stamp head count port value) }
{
    let step = steps_ports::write_port(ok, selected, stamp, head, count, port, value);
    recorded(step.no, drums, step)
}

// The drums settled beside what the step says, of which `no` is the call's number.
pub fn recorded<S>(no: u8, drums: Three<RecordDrum>, step: S) -> RecordStep<S>
    ensures { result ≡ recorded no drums step }
{
    let drums = Three {
        a: settled(no, drums.a),
        b: settled(no, drums.b),
        c: settled(no, drums.c),
    };
    RecordStep { drums, step }
}

// A refused call leaves a drum as it was, in every byte.
#[tactic(auto, unfolding(crate::specs::RecordSteps::settled, c_record::specs::Record::drum_of, c_record::specs::Record::record_drum))]
pub fn settled(no: u8, drum: RecordDrum) -> RecordDrum
    ensures { result ≡ settled no drum }
{
    if no != refusals::ACCEPTED {
        return drum;
    }
    if drum.on {
        return drum;
    }
    RecordDrum {
        on: false,
        sample: 0.0,
    }
}
