// The calls of `cabinet` and of `cabinet_words` on a record that a C or Rust host owns and lends. Each answers 01's number, alone or as the
// first field of its answer. `c_interface_c` exports them, and include/ym2149.h declares them.
// Calls that only read take `&Record` and stand last.
#![tactic(auto)]

ghost use Rattle.std.specs.Prelude.{◌≡◌, length};
ghost use Rattle.answers.specs.Answers.{answered};
ghost use Rattle.refusals.specs.Numbers.{accepted};
ghost use Rattle.c_record.specs.Record.{chip_of, drum_of};
ghost use Rattle.c_making.specs.Making.{new_record};
ghost use Rattle.c_words.specs.Words.{next_block, next_word};
ghost use Rattle.c_calls.specs.Calls.{apply_on, on_record, write_on};
ghost use Rattle.calls_making.specs.Making.{fresh, reset_call, with_clocks, with_variant};
ghost use Rattle.calls_registers.specs.Stored.{dump_registers, loaded_registers, read_register, wrote_register};
ghost use Rattle.calls_ports.specs.Ports.{read_port, write_port, wrote_port_immediate};
ghost use Rattle.calls_cycles.specs.Cycles.{cpu_cycle, flushed_pending_writes, pending_write_count, set_cpu_cycle, sync_sample_cycle};
ghost use Rattle.calls_effects.specs.Effects.{set_timer_irq_state, trigger_envelope};
ghost use Rattle.calls_channels.specs.ChannelCalls.{get_channel_outputs, is_channel_muted, set_channel_mute, set_drum_sample_override};
ghost use Rattle.calls_words.specs.Blocks.{block_buffer};
ghost use Rattle.c_interface.specs.Parts.{drums_in, mutes_in, with_drums};

use answers::{Byte, Bytes, Count, Counts, Cycle, Flag, Outputs, Played, Sample, Wrote};
use c_record::{Record, RecordDrum, Registers};
use steps_channels::Three;

// A default chip.
pub fn ym2149_new(chip: &mut Record) -> u8
    ensures answer { result ≡ (new_record (answered accepted fresh)).no }
    ensures left { chip.new ≡ (new_record (answered accepted fresh)).chip }
{
    let r = c_making::new();
    *chip = r.chip;
    r.no
}

// Refused clocks give a fresh default chip.
pub fn ym2149_with_clocks(chip: &mut Record, master: u32, rate: u32) -> u8
    ensures answer { result ≡ (new_record (with_clocks master rate)).no }
    ensures left { chip.new ≡ (new_record (with_clocks master rate)).chip }
{
    let r = c_making::with_clocks(master, rate);
    *chip = r.chip;
    r.no
}

// So does a refused variant.
pub fn ym2149_with_variant(chip: &mut Record, master: u32, rate: u32, variant: u8) -> u8
    ensures answer { result ≡ (new_record (with_variant master rate variant)).no }
    ensures left { chip.new ≡ (new_record (with_variant master rate variant)).chip }
{
    let r = c_making::with_variant(master, rate, variant);
    *chip = r.chip;
    r.no
}

pub fn ym2149_reset(chip: &mut Record) -> u8
    ensures answer { result ≡ (on_record reset_call chip.old).no }
    ensures left { chip.new ≡ (on_record reset_call chip.old).chip }
{
    let r = c_calls::reset(*chip);
    *chip = r.chip;
    r.no
}

#[tactic(auto, unfolding(calls_registers::specs::Stored::wrote_register, calls_registers::specs::Stored::write_register, steps_voice::specs::VoiceSteps::voiced, c_record::specs::Record::core_of, c_record::specs::Record::record_core, c_told::specs::Told::lent_back, c_steps::specs::RecordSteps::settled))]
pub fn ym2149_write_register(chip: &mut Record, register: u8, value: u8) -> Wrote
    ensures answer { result ≡ (write_on (wrote_register register value) chip.old).answer }
    ensures left { chip.new ≡ (write_on (wrote_register register value) chip.old).chip }
{
    let ok = lent_record::in_range(&*chip);
    let written = c_steps::write_register(ok, lent_drums(&*chip), chip.core.voice, register, value);
    keep_drums(chip, written.drums);
    chip.core.voice = written.step.voice;
    written.step.answer
}

#[tactic(auto, unfolding(calls_registers::specs::Stored::loaded_registers, calls_registers::specs::Stored::load_registers, steps_voice::specs::VoiceSteps::voiced_all, c_record::specs::Record::core_of, c_record::specs::Record::record_core, c_told::specs::Told::lent_back, c_steps::specs::RecordSteps::settled))]
pub fn ym2149_load_registers(chip: &mut Record, registers: Registers) -> Counts
    ensures answer { result ≡ (apply_on (loaded_registers registers.bytes) chip.old).answer }
    ensures left { chip.new ≡ (apply_on (loaded_registers registers.bytes) chip.old).chip }
{
    let ok = lent_record::in_range(&*chip);
    let loaded = c_steps::load_registers(ok, lent_drums(&*chip), chip.core.voice, registers);
    keep_drums(chip, loaded.drums);
    chip.core.voice = loaded.step.voice;
    loaded.step.answer
}

pub fn ym2149_write_port(chip: &mut Record, port: u8, value: u8) -> u8
    ensures answer { result ≡ (on_record (write_port port value) chip.old).no }
    ensures left { chip.new ≡ (on_record (write_port port value) chip.old).chip }
{
    let ok = lent_record::in_range(&*chip);
    let queued = c_steps::write_port(
        ok,
        lent_drums(&*chip),
        chip.core.selected,
        chip.core.stamp,
        chip.queue.head,
        chip.queue.count,
        port,
        value,
    );
    keep_drums(chip, queued.drums);
    let slot = queued.step;
    chip.core.selected = slot.selected;
    chip.queue.count = slot.count;
    queue_slot::put(&mut chip.queue.stamps, slot.at, slot.stamp);
    queue_slot::put(&mut chip.queue.registers, slot.at, slot.register);
    queue_slot::put(&mut chip.queue.values, slot.at, slot.value);
    slot.no
}

#[tactic(auto, unfolding(calls_ports::specs::Ports::wrote_port_immediate, calls_ports::specs::Ports::write_port_immediate, steps_voice::specs::VoiceSteps::port_written, c_record::specs::Record::core_of, c_record::specs::Record::record_core, c_told::specs::Told::lent_back, c_steps::specs::RecordSteps::settled))]
pub fn ym2149_write_port_immediate(chip: &mut Record, port: u8, value: u8) -> Wrote
    ensures answer { result ≡ (write_on (wrote_port_immediate port value) chip.old).answer }
    ensures left { chip.new ≡ (write_on (wrote_port_immediate port value) chip.old).chip }
{
    let ok = lent_record::in_range(&*chip);
    let port_written = c_steps::write_port_immediate(
        ok,
        lent_drums(&*chip),
        chip.core.voice,
        chip.core.selected,
        port,
        value,
    );
    keep_drums(chip, port_written.drums);
    chip.core.voice = port_written.step.voice;
    chip.core.selected = port_written.step.selected;
    port_written.step.answer
}

#[tactic(auto, unfolding(calls_cycles::specs::Cycles::set_cpu_cycle, steps_cycles::specs::CycleSteps::stamp_set, c_record::specs::Record::core_of, c_record::specs::Record::record_core, c_told::specs::Told::lent_back, c_steps::specs::RecordSteps::settled))]
pub fn ym2149_set_cpu_cycle(chip: &mut Record, cycle: u64) -> u8
    ensures answer { result ≡ (on_record (set_cpu_cycle cycle) chip.old).no }
    ensures left { chip.new ≡ (on_record (set_cpu_cycle cycle) chip.old).chip }
{
    let ok = lent_record::in_range(&*chip);
    let r = c_steps::set_cpu_cycle(ok, lent_drums(&*chip), chip.core.stamp, cycle);
    keep_drums(chip, r.drums);
    chip.core.stamp = r.step.stamp;
    r.step.no
}

#[tactic(auto, unfolding(calls_cycles::specs::Cycles::sync_sample_cycle, steps_cycles::specs::CycleSteps::both_set, c_record::specs::Record::core_of, c_record::specs::Record::record_core, c_told::specs::Told::lent_back, c_steps::specs::RecordSteps::settled))]
pub fn ym2149_sync_sample_cycle(chip: &mut Record, cycle: u64) -> u8
    ensures answer { result ≡ (on_record (sync_sample_cycle cycle) chip.old).no }
    ensures left { chip.new ≡ (on_record (sync_sample_cycle cycle) chip.old).chip }
{
    let ok = lent_record::in_range(&*chip);
    let both = c_steps::sync_sample_cycle(
        ok,
        lent_drums(&*chip),
        chip.core.stamp,
        chip.core.start,
        cycle,
    );
    keep_drums(chip, both.drums);
    chip.core.stamp = both.step.stamp;
    chip.core.start = both.step.start;
    both.step.no
}

pub fn ym2149_flush_pending_writes(chip: &mut Record) -> Counts
    ensures answer { result ≡ (apply_on flushed_pending_writes chip.old).answer }
    ensures left { chip.new ≡ (apply_on flushed_pending_writes chip.old).chip }
{
    let ok = lent_record::in_range(&*chip);
    let flushed = c_queue::flush_pending_writes(
        &chip.queue.stamps,
        &chip.queue.registers,
        &chip.queue.values,
        ok,
        lent_drums(&*chip),
        chip.core.voice,
        chip.queue.head,
        chip.queue.count,
    );
    keep_drums(chip, flushed.drums);
    chip.core.voice = flushed.step.voice;
    chip.queue.head = flushed.step.head;
    chip.queue.count = flushed.step.count;
    flushed.step.answer
}

#[tactic(auto, unfolding(calls_effects::specs::Effects::set_timer_irq_state, calls_effects::specs::Effects::irq_set, steps_effects::specs::EffectSteps::flag_set, c_record::specs::Record::core_of, c_record::specs::Record::record_core, c_told::specs::Told::lent_back, c_steps::specs::RecordSteps::settled))]
pub fn ym2149_set_timer_irq_state(chip: &mut Record, on: bool) -> u8
    ensures answer { result ≡ (on_record (set_timer_irq_state on) chip.old).no }
    ensures left { chip.new ≡ (on_record (set_timer_irq_state on) chip.old).chip }
{
    let ok = lent_record::in_range(&*chip);
    let flagged = c_steps::set_timer_irq_state(
        ok,
        lent_drums(&*chip),
        chip.core.voice.generators,
        chip.core.voice.irq,
        on,
    );
    keep_drums(chip, flagged.drums);
    chip.core.voice.generators = flagged.step.generators;
    chip.core.voice.irq = flagged.step.irq;
    flagged.step.no
}

pub fn ym2149_inside_timer_irq(chip: &mut Record, inside: bool) -> u8
    ensures answer { result ≡ (on_record (set_timer_irq_state inside) chip.old).no }
    ensures left { chip.new ≡ (on_record (set_timer_irq_state inside) chip.old).chip }
{
    ym2149_set_timer_irq_state(chip, inside)
}

#[tactic(auto, unfolding(calls_effects::specs::Effects::trigger_envelope, steps_effects::specs::EffectSteps::trigger_set, c_record::specs::Record::core_of, c_record::specs::Record::record_core, c_told::specs::Told::lent_back, c_steps::specs::RecordSteps::settled))]
pub fn ym2149_trigger_envelope(chip: &mut Record) -> u8
    ensures answer { result ≡ (on_record trigger_envelope chip.old).no }
    ensures left { chip.new ≡ (on_record trigger_envelope chip.old).chip }
{
    let ok = lent_record::in_range(&*chip);
    let triggered = c_steps::trigger_envelope(
        ok,
        lent_drums(&*chip),
        chip.core.voice.generators.envelope,
    );
    keep_drums(chip, triggered.drums);
    chip.core.voice.generators.envelope = triggered.step.envelope;
    triggered.step.no
}

pub fn ym2149_set_channel_mute(chip: &mut Record, channel: usize, muted: bool) -> u8
    ensures answer { result ≡ (on_record (set_channel_mute channel muted) chip.old).no }
    ensures left { chip.new ≡ (on_record (set_channel_mute channel muted) chip.old).chip }
{
    let ok = lent_record::in_range(&*chip);
    let set = c_steps::set_channel_mute(ok, lent_drums(&*chip), lent_mutes(&*chip), channel, muted);
    keep_drums(chip, set.drums);
    chip.core.a.muted = set.step.values.a;
    chip.core.b.muted = set.step.values.b;
    chip.core.c.muted = set.step.values.c;
    set.step.no
}

pub fn ym2149_set_drum_sample_override(chip: &mut Record, channel: usize, drum: RecordDrum) -> u8
    ensures answer { result ≡ (on_record (set_drum_sample_override channel (drum_of drum)) chip.old).no }
    ensures left { chip.new ≡ (on_record (set_drum_sample_override channel (drum_of drum)) chip.old).chip }
{
    let ok = lent_record::in_range(&*chip);
    let set = c_steps::set_drum_sample_override(ok, lent_drums(&*chip), channel, drum);
    keep_drums(chip, set.values);
    set.no
}

pub fn ym2149_compute_next_sample(chip: &mut Record) -> Sample
    ensures answer { result ≡ (next_word chip.old).answer }
    ensures left { chip.new ≡ (next_word chip.old).chip }
{
    let ok = lent_record::in_range(&*chip);
    let r = c_words::compute_next_sample(
        &chip.queue.stamps,
        &chip.queue.registers,
        &chip.queue.values,
        ok,
        chip.core.clocks,
        chip.core.variant,
        chip.core.voice,
        chip.core.a,
        chip.core.b,
        chip.core.c,
        chip.core.accumulator,
        chip.core.start,
        chip.queue.head,
        chip.queue.count,
    );
    chip.core.voice = r.voice;
    chip.core.a = r.a;
    chip.core.b = r.b;
    chip.core.c = r.c;
    chip.core.accumulator = r.accumulator;
    chip.core.start = r.start;
    chip.queue.head = r.head;
    chip.queue.count = r.count;
    r.answer
}

pub fn ym2149_block(chip: &mut Record, out: &mut [u16]) -> Played
    ensures answer { result ≡ (next_block (length out.old) chip.old).answer }
    ensures left { chip.new ≡ (next_block (length out.old) chip.old).chip }
    ensures buffer { out.new ≡ block_buffer out.old (chip_of chip.old) }
{
    let ok = lent_record::in_range(&*chip);
    let played = c_blocks::block(
        &chip.queue.stamps,
        &chip.queue.registers,
        &chip.queue.values,
        out,
        ok,
        chip.core,
        chip.queue.head,
        chip.queue.count,
    );
    chip.core = played.core;
    chip.queue.head = played.head;
    chip.queue.count = played.count;
    played.answer
}

#[tactic(auto, unfolding(calls_registers::specs::Stored::read_register, steps_registers::specs::RegisterSteps::register_said, c_record::specs::Record::core_of))]
pub fn ym2149_read_register(chip: &Record, register: u8) -> Byte
    ensures { result ≡ read_register register (chip_of chip.now) }
{
    let ok = lent_record::in_range(chip);
    steps_registers::read_register(ok, chip.core.voice.registers, register)
}

#[tactic(auto, unfolding(calls_registers::specs::Stored::dump_registers, steps_registers::specs::RegisterSteps::dump_said, c_record::specs::Record::core_of))]
pub fn ym2149_dump_registers(chip: &Record) -> Bytes
    ensures { result ≡ dump_registers (chip_of chip.now) }
{
    let ok = lent_record::in_range(chip);
    steps_registers::dump_registers(ok, chip.core.voice.registers)
}

#[tactic(auto, unfolding(calls_ports::specs::Ports::read_port, steps_registers::specs::RegisterSteps::port_said, c_record::specs::Record::core_of))]
pub fn ym2149_read_port(chip: &Record, port: u8) -> Byte
    ensures { result ≡ read_port port (chip_of chip.now) }
{
    let ok = lent_record::in_range(chip);
    steps_registers::read_port(ok, chip.core.voice.registers, chip.core.selected, port)
}

#[tactic(auto, unfolding(calls_cycles::specs::Cycles::cpu_cycle, steps_cycles::specs::CycleSteps::cycle_said, c_record::specs::Record::core_of))]
pub fn ym2149_cpu_cycle(chip: &Record) -> Cycle
    ensures { result ≡ cpu_cycle (chip_of chip.now) }
{
    let ok = lent_record::in_range(chip);
    steps_cycles::cpu_cycle(ok, chip.core.stamp)
}

#[tactic(auto, unfolding(calls_cycles::specs::Cycles::pending_write_count, steps_cycles::specs::CycleSteps::count_said, c_record::specs::Record::core_of))]
pub fn ym2149_pending_write_count(chip: &Record) -> Count
    ensures { result ≡ pending_write_count (chip_of chip.now) }
{
    let ok = lent_record::in_range(chip);
    steps_cycles::pending_write_count(ok, chip.queue.count)
}

pub fn ym2149_is_channel_muted(chip: &Record, channel: usize) -> Flag
    ensures { result ≡ is_channel_muted channel (chip_of chip.now) }
{
    let ok = lent_record::in_range(chip);
    steps_channels::is_channel_muted(ok, lent_mutes(chip), channel)
}

#[tactic(auto, unfolding(calls_channels::specs::ChannelCalls::get_channel_outputs, steps_channels::specs::ChannelSteps::outputs_said, c_record::specs::Record::core_of))]
pub fn ym2149_get_channel_outputs(chip: &Record) -> Outputs
    ensures { result ≡ get_channel_outputs (chip_of chip.now) }
{
    let ok = lent_record::in_range(chip);
    let outputs = Three {
        a: chip.core.a.output,
        b: chip.core.b.output,
        c: chip.core.c.output,
    };
    steps_channels::get_channel_outputs(ok, outputs)
}

// The three drums to store: an accepted call leaves one that is off at level 0.
fn keep_drums(chip: &mut Record, drums: Three<RecordDrum>)
    ensures { chip.new ≡ with_drums drums chip.old }
{
    chip.core.a.drum = drums.a;
    chip.core.b.drum = drums.b;
    chip.core.c.drum = drums.c;
}

fn lent_drums(chip: &Record) -> Three<RecordDrum>
    ensures { result ≡ drums_in chip.now }
{
    Three {
        a: chip.core.a.drum,
        b: chip.core.b.drum,
        c: chip.core.c.drum,
    }
}

fn lent_mutes(chip: &Record) -> Three<bool>
    ensures { result ≡ mutes_in chip.now }
{
    Three {
        a: chip.core.a.muted,
        b: chip.core.b.muted,
        c: chip.core.c.muted,
    }
}
