// For C and Rust to link: the calls of `c_interface` under their C names, each with its promise. include/ym2149.h declares them.
#![tactic(auto)]

ghost use Rattle.std.specs.Prelude.{◌≡◌, length};
ghost use Rattle.answers.specs.Answers.{answered};
ghost use Rattle.refusals.specs.Numbers.{accepted};
ghost use Rattle.c_record.specs.Record.{chip_of, drum_of};
ghost use Rattle.c_making.specs.Making.{new_record};
ghost use Rattle.c_words.specs.Words.{next_block, next_word};
ghost use Rattle.c_calls.specs.Calls.{apply_on, on_record, write_on};
ghost use Rattle.calls_making.specs.Making.{fresh, reset_call, with_clocks, with_variant};
ghost use Rattle.calls_registers.specs.Stored.{dump_registers, loaded_registers, read_register, wrote_register};
ghost use Rattle.calls_ports.specs.Ports.{read_port, write_port, wrote_port_immediate};
ghost use Rattle.calls_cycles.specs.Cycles.{cpu_cycle, flushed_pending_writes, pending_write_count, set_cpu_cycle, sync_sample_cycle};
ghost use Rattle.calls_effects.specs.Effects.{set_timer_irq_state, trigger_envelope};
ghost use Rattle.calls_channels.specs.ChannelCalls.{get_channel_outputs, is_channel_muted, set_channel_mute, set_drum_sample_override};
ghost use Rattle.calls_words.specs.Blocks.{block_buffer};

use answers::{Byte, Bytes, Count, Counts, Cycle, Flag, Outputs, Played, Sample, Wrote};
use c_record::{Record, RecordDrum, Registers};

// A default chip.
#[unsafe(no_mangle)]
pub extern "C" fn ym2149_new(chip: &mut Record) -> u8
    ensures answer { result ≡ (new_record (answered accepted fresh)).no }
    ensures left { chip.new ≡ (new_record (answered accepted fresh)).chip }
{
    c_interface::ym2149_new(chip)
}

// Refused clocks give a fresh default chip.
#[unsafe(no_mangle)]
pub extern "C" fn ym2149_with_clocks(chip: &mut Record, master: u32, rate: u32) -> u8
    ensures answer { result ≡ (new_record (with_clocks master rate)).no }
    ensures left { chip.new ≡ (new_record (with_clocks master rate)).chip }
{
    c_interface::ym2149_with_clocks(chip, master, rate)
}

// So does a refused variant.
#[unsafe(no_mangle)]
pub extern "C" fn ym2149_with_variant(chip: &mut Record, master: u32, rate: u32, variant: u8) -> u8
    ensures answer { result ≡ (new_record (with_variant master rate variant)).no }
    ensures left { chip.new ≡ (new_record (with_variant master rate variant)).chip }
{
    c_interface::ym2149_with_variant(chip, master, rate, variant)
}

#[unsafe(no_mangle)]
pub extern "C" fn ym2149_reset(chip: &mut Record) -> u8
    ensures answer { result ≡ (on_record reset_call chip.old).no }
    ensures left { chip.new ≡ (on_record reset_call chip.old).chip }
{
    c_interface::ym2149_reset(chip)
}

#[unsafe(no_mangle)]
pub extern "C" fn ym2149_write_register(chip: &mut Record, register: u8, value: u8) -> Wrote
    ensures answer { result ≡ (write_on (wrote_register register value) chip.old).answer }
    ensures left { chip.new ≡ (write_on (wrote_register register value) chip.old).chip }
{
    c_interface::ym2149_write_register(chip, register, value)
}

#[unsafe(no_mangle)]
pub extern "C" fn ym2149_load_registers(chip: &mut Record, registers: Registers) -> Counts
    ensures answer { result ≡ (apply_on (loaded_registers registers.bytes) chip.old).answer }
    ensures left { chip.new ≡ (apply_on (loaded_registers registers.bytes) chip.old).chip }
{
    c_interface::ym2149_load_registers(chip, registers)
}

#[unsafe(no_mangle)]
pub extern "C" fn ym2149_write_port(chip: &mut Record, port: u8, value: u8) -> u8
    ensures answer { result ≡ (on_record (write_port port value) chip.old).no }
    ensures left { chip.new ≡ (on_record (write_port port value) chip.old).chip }
{
    c_interface::ym2149_write_port(chip, port, value)
}

#[unsafe(no_mangle)]
pub extern "C" fn ym2149_write_port_immediate(chip: &mut Record, port: u8, value: u8) -> Wrote
    ensures answer { result ≡ (write_on (wrote_port_immediate port value) chip.old).answer }
    ensures left { chip.new ≡ (write_on (wrote_port_immediate port value) chip.old).chip }
{
    c_interface::ym2149_write_port_immediate(chip, port, value)
}

#[unsafe(no_mangle)]
pub extern "C" fn ym2149_set_cpu_cycle(chip: &mut Record, cycle: u64) -> u8
    ensures answer { result ≡ (on_record (set_cpu_cycle cycle) chip.old).no }
    ensures left { chip.new ≡ (on_record (set_cpu_cycle cycle) chip.old).chip }
{
    c_interface::ym2149_set_cpu_cycle(chip, cycle)
}

#[unsafe(no_mangle)]
pub extern "C" fn ym2149_sync_sample_cycle(chip: &mut Record, cycle: u64) -> u8
    ensures answer { result ≡ (on_record (sync_sample_cycle cycle) chip.old).no }
    ensures left { chip.new ≡ (on_record (sync_sample_cycle cycle) chip.old).chip }
{
    c_interface::ym2149_sync_sample_cycle(chip, cycle)
}

#[unsafe(no_mangle)]
pub extern "C" fn ym2149_flush_pending_writes(chip: &mut Record) -> Counts
    ensures answer { result ≡ (apply_on flushed_pending_writes chip.old).answer }
    ensures left { chip.new ≡ (apply_on flushed_pending_writes chip.old).chip }
{
    c_interface::ym2149_flush_pending_writes(chip)
}

#[unsafe(no_mangle)]
pub extern "C" fn ym2149_set_timer_irq_state(chip: &mut Record, on: bool) -> u8
    ensures answer { result ≡ (on_record (set_timer_irq_state on) chip.old).no }
    ensures left { chip.new ≡ (on_record (set_timer_irq_state on) chip.old).chip }
{
    c_interface::ym2149_set_timer_irq_state(chip, on)
}

#[unsafe(no_mangle)]
pub extern "C" fn ym2149_inside_timer_irq(chip: &mut Record, inside: bool) -> u8
    ensures answer { result ≡ (on_record (set_timer_irq_state inside) chip.old).no }
    ensures left { chip.new ≡ (on_record (set_timer_irq_state inside) chip.old).chip }
{
    c_interface::ym2149_inside_timer_irq(chip, inside)
}

#[unsafe(no_mangle)]
pub extern "C" fn ym2149_trigger_envelope(chip: &mut Record) -> u8
    ensures answer { result ≡ (on_record trigger_envelope chip.old).no }
    ensures left { chip.new ≡ (on_record trigger_envelope chip.old).chip }
{
    c_interface::ym2149_trigger_envelope(chip)
}

#[unsafe(no_mangle)]
pub extern "C" fn ym2149_set_channel_mute(chip: &mut Record, channel: usize, muted: bool) -> u8
    ensures answer { result ≡ (on_record (set_channel_mute channel muted) chip.old).no }
    ensures left { chip.new ≡ (on_record (set_channel_mute channel muted) chip.old).chip }
{
    c_interface::ym2149_set_channel_mute(chip, channel, muted)
}

#[unsafe(no_mangle)]
pub extern "C" fn ym2149_set_drum_sample_override(
    chip: &mut Record,
    channel: usize,
    drum: RecordDrum,
) -> u8
    ensures answer { result ≡ (on_record (set_drum_sample_override channel (drum_of drum)) chip.old).no }
    ensures left { chip.new ≡ (on_record (set_drum_sample_override channel (drum_of drum)) chip.old).chip }
{
    c_interface::ym2149_set_drum_sample_override(chip, channel, drum)
}

#[unsafe(no_mangle)]
pub extern "C" fn ym2149_compute_next_sample(chip: &mut Record) -> Sample
    ensures answer { result ≡ (next_word chip.old).answer }
    ensures left { chip.new ≡ (next_word chip.old).chip }
{
    c_interface::ym2149_compute_next_sample(chip)
}

#[unsafe(no_mangle)]
pub extern "C" fn ym2149_block(chip: &mut Record, out: &mut [u16]) -> Played
    ensures answer { result ≡ (next_block (length out.old) chip.old).answer }
    ensures left { chip.new ≡ (next_block (length out.old) chip.old).chip }
    ensures buffer { out.new ≡ block_buffer out.old (chip_of chip.old) }
{
    c_interface::ym2149_block(chip, out)
}

#[unsafe(no_mangle)]
pub extern "C" fn ym2149_read_register(chip: &Record, register: u8) -> Byte
    ensures { result ≡ read_register register (chip_of chip.now) }
{
    c_interface::ym2149_read_register(chip, register)
}

#[unsafe(no_mangle)]
pub extern "C" fn ym2149_dump_registers(chip: &Record) -> Bytes
    ensures { result ≡ dump_registers (chip_of chip.now) }
{
    c_interface::ym2149_dump_registers(chip)
}

#[unsafe(no_mangle)]
pub extern "C" fn ym2149_read_port(chip: &Record, port: u8) -> Byte
    ensures { result ≡ read_port port (chip_of chip.now) }
{
    c_interface::ym2149_read_port(chip, port)
}

#[unsafe(no_mangle)]
pub extern "C" fn ym2149_cpu_cycle(chip: &Record) -> Cycle
    ensures { result ≡ cpu_cycle (chip_of chip.now) }
{
    c_interface::ym2149_cpu_cycle(chip)
}

#[unsafe(no_mangle)]
pub extern "C" fn ym2149_pending_write_count(chip: &Record) -> Count
    ensures { result ≡ pending_write_count (chip_of chip.now) }
{
    c_interface::ym2149_pending_write_count(chip)
}

#[unsafe(no_mangle)]
pub extern "C" fn ym2149_is_channel_muted(chip: &Record, channel: usize) -> Flag
    ensures { result ≡ is_channel_muted channel (chip_of chip.now) }
{
    c_interface::ym2149_is_channel_muted(chip, channel)
}

#[unsafe(no_mangle)]
pub extern "C" fn ym2149_get_channel_outputs(chip: &Record) -> Outputs
    ensures { result ≡ get_channel_outputs (chip_of chip.now) }
{
    c_interface::ym2149_get_channel_outputs(chip)
}
