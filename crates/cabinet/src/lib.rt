// The calls on a chip record that its owner lends, but for words and blocks (`cabinet_words`). 01, "One tick, one word": "The cabinet host
// lends its one chip record and reads the new state there afterwards."
// Calls that only read take `&Chip` and stand last.
#![tactic(auto)]

ghost use Rattle.std.specs.Prelude.{◌≡◌};
ghost use Rattle.calls_making.specs.Making.{reset_call};
ghost use Rattle.calls_registers.specs.Stored.{dump_registers, loaded_registers, read_register, wrote_register};
ghost use Rattle.calls_ports.specs.Ports.{read_port, write_port, wrote_port_immediate};
ghost use Rattle.calls_cycles.specs.Cycles.{cpu_cycle, flushed_pending_writes, pending_write_count, set_cpu_cycle, sync_sample_cycle};
ghost use Rattle.calls_effects.specs.Effects.{set_timer_irq_state, trigger_envelope};
ghost use Rattle.calls_channels.specs.ChannelCalls.{get_channel_outputs, is_channel_muted, mutes_of, set_channel_mute, set_drum_sample_override};

use answers::{Byte, Bytes, Count, Counts, Cycle, Flag, Outputs, Wrote};
use channel::Drum;
use chip::Chip;
use steps_channels::Three;

pub fn reset(chip: &mut Chip) -> u8
    ensures answer { result ≡ (reset_call chip.old).no }
    ensures left { chip.new ≡ (reset_call chip.old).chip }
{
    let r = calls_making::reset(*chip);
    *chip = r.chip;
    r.no
}

#[tactic(auto, unfolding(calls_registers::specs::Stored::wrote_register, calls_registers::specs::Stored::write_register, steps_voice::specs::VoiceSteps::voiced))]
pub fn write_register(chip: &mut Chip, register: u8, value: u8) -> Wrote
    ensures answer { result ≡ (wrote_register register value chip.old).answer }
    ensures left { chip.new ≡ (wrote_register register value chip.old).chip }
{
    let ok = lent_chip::in_range(&*chip);
    let r = steps_voice::write_register(ok, chip.core.voice, register, value);
    chip.core.voice = r.voice;
    r.answer
}

#[tactic(auto, unfolding(calls_registers::specs::Stored::loaded_registers, calls_registers::specs::Stored::load_registers, steps_voice::specs::VoiceSteps::voiced_all))]
pub fn load_registers(chip: &mut Chip, bytes: [u8; 16]) -> Counts
    ensures answer { result ≡ (loaded_registers bytes chip.old).answer }
    ensures left { chip.new ≡ (loaded_registers bytes chip.old).chip }
{
    let ok = lent_chip::in_range(&*chip);
    let r = steps_voice::load_registers(ok, chip.core.voice, bytes);
    chip.core.voice = r.voice;
    r.answer
}

pub fn write_port(chip: &mut Chip, port: u8, value: u8) -> u8
    ensures answer { result ≡ (write_port port value chip.old).no }
    ensures left { chip.new ≡ (write_port port value chip.old).chip }
{
    let ok = lent_chip::in_range(&*chip);
    let r = steps_ports::write_port(
        ok,
        chip.core.selected,
        chip.core.stamp,
        chip.queue.head,
        chip.queue.count,
        port,
        value,
    );
    chip.core.selected = r.selected;
    chip.queue.count = r.count;
    queue_slot::put(&mut chip.queue.stamps, r.at, r.stamp);
    queue_slot::put(&mut chip.queue.registers, r.at, r.register);
    queue_slot::put(&mut chip.queue.values, r.at, r.value);
    r.no
}

#[tactic(auto, unfolding(calls_ports::specs::Ports::wrote_port_immediate, calls_ports::specs::Ports::write_port_immediate, steps_voice::specs::VoiceSteps::port_written))]
pub fn write_port_immediate(chip: &mut Chip, port: u8, value: u8) -> Wrote
    ensures answer { result ≡ (wrote_port_immediate port value chip.old).answer }
    ensures left { chip.new ≡ (wrote_port_immediate port value chip.old).chip }
{
    let ok = lent_chip::in_range(&*chip);
    let r = steps_voice::write_port_immediate(ok, chip.core.voice, chip.core.selected, port, value);
    chip.core.voice = r.voice;
    chip.core.selected = r.selected;
    r.answer
}

#[tactic(auto, unfolding(calls_cycles::specs::Cycles::set_cpu_cycle, steps_cycles::specs::CycleSteps::stamp_set))]
pub fn set_cpu_cycle(chip: &mut Chip, cycle: u64) -> u8
    ensures answer { result ≡ (set_cpu_cycle cycle chip.old).no }
    ensures left { chip.new ≡ (set_cpu_cycle cycle chip.old).chip }
{
    let ok = lent_chip::in_range(&*chip);
    let r = steps_cycles::set_cpu_cycle(ok, chip.core.stamp, cycle);
    chip.core.stamp = r.stamp;
    r.no
}

#[tactic(auto, unfolding(calls_cycles::specs::Cycles::sync_sample_cycle, steps_cycles::specs::CycleSteps::both_set))]
pub fn sync_sample_cycle(chip: &mut Chip, cycle: u64) -> u8
    ensures answer { result ≡ (sync_sample_cycle cycle chip.old).no }
    ensures left { chip.new ≡ (sync_sample_cycle cycle chip.old).chip }
{
    let ok = lent_chip::in_range(&*chip);
    let both = steps_cycles::sync_sample_cycle(ok, chip.core.stamp, chip.core.start, cycle);
    chip.core.stamp = both.stamp;
    chip.core.start = both.start;
    both.no
}

pub fn flush_pending_writes(chip: &mut Chip) -> Counts
    ensures answer { result ≡ (flushed_pending_writes chip.old).answer }
    ensures left { chip.new ≡ (flushed_pending_writes chip.old).chip }
{
    let ok = lent_chip::in_range(&*chip);
    let flushed = steps_queue::flush_pending_writes(
        &chip.queue.stamps,
        &chip.queue.registers,
        &chip.queue.values,
        ok,
        chip.core.voice,
        chip.queue.head,
        chip.queue.count,
    );
    chip.core.voice = flushed.voice;
    chip.queue.head = flushed.head;
    chip.queue.count = flushed.count;
    flushed.answer
}

#[tactic(auto, unfolding(calls_effects::specs::Effects::set_timer_irq_state, calls_effects::specs::Effects::irq_set, steps_effects::specs::EffectSteps::flag_set))]
pub fn set_timer_irq_state(chip: &mut Chip, on: bool) -> u8
    ensures answer { result ≡ (set_timer_irq_state on chip.old).no }
    ensures left { chip.new ≡ (set_timer_irq_state on chip.old).chip }
{
    let ok = lent_chip::in_range(&*chip);
    let r = steps_effects::set_timer_irq_state(
        ok,
        chip.core.voice.generators,
        chip.core.voice.irq,
        on,
    );
    chip.core.voice.generators = r.generators;
    chip.core.voice.irq = r.irq;
    r.no
}

pub fn inside_timer_irq(chip: &mut Chip, inside: bool) -> u8
    ensures answer { result ≡ (set_timer_irq_state inside chip.old).no }
    ensures left { chip.new ≡ (set_timer_irq_state inside chip.old).chip }
{
    set_timer_irq_state(chip, inside)
}

#[tactic(auto, unfolding(calls_effects::specs::Effects::trigger_envelope, steps_effects::specs::EffectSteps::trigger_set))]
pub fn trigger_envelope(chip: &mut Chip) -> u8
    ensures answer { result ≡ (trigger_envelope chip.old).no }
    ensures left { chip.new ≡ (trigger_envelope chip.old).chip }
{
    let ok = lent_chip::in_range(&*chip);
    let r = steps_effects::trigger_envelope(ok, chip.core.voice.generators.envelope);
    chip.core.voice.generators.envelope = r.envelope;
    r.no
}

pub fn set_channel_mute(chip: &mut Chip, channel: usize, muted: bool) -> u8
    ensures answer { result ≡ (set_channel_mute channel muted chip.old).no }
    ensures left { chip.new ≡ (set_channel_mute channel muted chip.old).chip }
{
    let ok = lent_chip::in_range(&*chip);
    let set = steps_channels::set_channel_mute(ok, mutes(&*chip), channel, muted);
    chip.core.channels.a.muted = set.values.a;
    chip.core.channels.b.muted = set.values.b;
    chip.core.channels.c.muted = set.values.c;
    set.no
}

pub fn set_drum_sample_override(chip: &mut Chip, channel: usize, drum: Drum) -> u8
    ensures answer { result ≡ (set_drum_sample_override channel drum chip.old).no }
    ensures left { chip.new ≡ (set_drum_sample_override channel drum chip.old).chip }
{
    let ok = lent_chip::in_range(&*chip);
    let drums = Three {
        a: chip.core.channels.a.drum,
        b: chip.core.channels.b.drum,
        c: chip.core.channels.c.drum,
    };
    let set = steps_channels::set_drum_sample_override(ok, drums, channel, drum);
    chip.core.channels.a.drum = set.values.a;
    chip.core.channels.b.drum = set.values.b;
    chip.core.channels.c.drum = set.values.c;
    set.no
}

#[tactic(auto, unfolding(calls_registers::specs::Stored::read_register, steps_registers::specs::RegisterSteps::register_said))]
pub fn read_register(chip: &Chip, register: u8) -> Byte
    ensures { result ≡ read_register register chip.now }
{
    let ok = lent_chip::in_range(chip);
    steps_registers::read_register(ok, chip.core.voice.registers, register)
}

#[tactic(auto, unfolding(calls_registers::specs::Stored::dump_registers, steps_registers::specs::RegisterSteps::dump_said))]
pub fn dump_registers(chip: &Chip) -> Bytes
    ensures { result ≡ dump_registers chip.now }
{
    let ok = lent_chip::in_range(chip);
    steps_registers::dump_registers(ok, chip.core.voice.registers)
}

#[tactic(auto, unfolding(calls_ports::specs::Ports::read_port, steps_registers::specs::RegisterSteps::port_said))]
pub fn read_port(chip: &Chip, port: u8) -> Byte
    ensures { result ≡ read_port port chip.now }
{
    let ok = lent_chip::in_range(chip);
    steps_registers::read_port(ok, chip.core.voice.registers, chip.core.selected, port)
}

#[tactic(auto, unfolding(calls_cycles::specs::Cycles::cpu_cycle, steps_cycles::specs::CycleSteps::cycle_said))]
pub fn cpu_cycle(chip: &Chip) -> Cycle
    ensures { result ≡ cpu_cycle chip.now }
{
    let ok = lent_chip::in_range(chip);
    steps_cycles::cpu_cycle(ok, chip.core.stamp)
}

#[tactic(auto, unfolding(calls_cycles::specs::Cycles::pending_write_count, steps_cycles::specs::CycleSteps::count_said))]
pub fn pending_write_count(chip: &Chip) -> Count
    ensures { result ≡ pending_write_count chip.now }
{
    let ok = lent_chip::in_range(chip);
    steps_cycles::pending_write_count(ok, chip.queue.count)
}

pub fn is_channel_muted(chip: &Chip, channel: usize) -> Flag
    ensures { result ≡ is_channel_muted channel chip.now }
{
    let ok = lent_chip::in_range(chip);
    steps_channels::is_channel_muted(ok, mutes(chip), channel)
}

#[tactic(auto, unfolding(calls_channels::specs::ChannelCalls::get_channel_outputs, steps_channels::specs::ChannelSteps::outputs_said))]
pub fn get_channel_outputs(chip: &Chip) -> Outputs
    ensures { result ≡ get_channel_outputs chip.now }
{
    let ok = lent_chip::in_range(chip);
    let outputs = Three {
        a: chip.core.channels.a.output,
        b: chip.core.channels.b.output,
        c: chip.core.channels.c.output,
    };
    steps_channels::get_channel_outputs(ok, outputs)
}

fn mutes(chip: &Chip) -> Three<bool>
    ensures { result ≡ mutes_of chip.now.core.channels }
{
    Three {
        a: chip.core.channels.a.muted,
        b: chip.core.channels.b.muted,
        c: chip.core.channels.c.muted,
    }
}
