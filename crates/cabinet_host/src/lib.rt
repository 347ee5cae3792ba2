// The lent calls as a host makes them: it lends the record that it owns, and reads the new state there afterwards. 01, "One tick,
// one word". Each answers what the call by value answers.
#![tactic(auto)]

ghost use Rattle.std.specs.Prelude.{◌≡◌, length};
ghost use Rattle.calls_making.specs.Making.{reset_call};
ghost use Rattle.calls_registers.specs.Stored.{dump_registers, loaded_registers, read_register, wrote_register};
ghost use Rattle.calls_ports.specs.Ports.{read_port, write_port, wrote_port_immediate};
ghost use Rattle.calls_cycles.specs.Cycles.{cpu_cycle, flushed_pending_writes, pending_write_count, set_cpu_cycle, sync_sample_cycle};
ghost use Rattle.calls_effects.specs.Effects.{set_timer_irq_state, trigger_envelope};
ghost use Rattle.calls_channels.specs.ChannelCalls.{get_channel_outputs, is_channel_muted, set_channel_mute, set_drum_sample_override};
ghost use Rattle.calls_words.specs.Blocks.{block_buffer, blocked, sampled};

use answers::{
    Answered, Applied, Blocked, Byte, Bytes, Count, Cycle, Flag, Outputs, Sampled, Written,
};
use channel::Drum;
use chip::Chip;

pub fn reset(mut chip: Chip) -> Answered
    ensures { result ≡ reset_call chip }
{
    let no = cabinet::reset(&mut chip);
    Answered { chip, no }
}

pub fn write_register(mut chip: Chip, register: u8, value: u8) -> Written
    ensures { result ≡ wrote_register register value chip }
{
    let answer = cabinet::write_register(&mut chip, register, value);
    Written { chip, answer }
}

pub fn load_registers(mut chip: Chip, bytes: [u8; 16]) -> Applied
    ensures { result ≡ loaded_registers bytes chip }
{
    let answer = cabinet::load_registers(&mut chip, bytes);
    Applied { chip, answer }
}

pub fn write_port(mut chip: Chip, port: u8, value: u8) -> Answered
    ensures { result ≡ write_port port value chip }
{
    let no = cabinet::write_port(&mut chip, port, value);
    Answered { chip, no }
}

pub fn write_port_immediate(mut chip: Chip, port: u8, value: u8) -> Written
    ensures { result ≡ wrote_port_immediate port value chip }
{
    let answer = cabinet::write_port_immediate(&mut chip, port, value);
    Written { chip, answer }
}

pub fn set_cpu_cycle(mut chip: Chip, cycle: u64) -> Answered
    ensures { result ≡ set_cpu_cycle cycle chip }
{
    let no = cabinet::set_cpu_cycle(&mut chip, cycle);
    Answered { chip, no }
}

pub fn sync_sample_cycle(mut chip: Chip, cycle: u64) -> Answered
    ensures { result ≡ sync_sample_cycle cycle chip }
{
    let no = cabinet::sync_sample_cycle(&mut chip, cycle);
    Answered { chip, no }
}

pub fn flush_pending_writes(mut chip: Chip) -> Applied
    ensures { result ≡ flushed_pending_writes chip }
{
    let answer = cabinet::flush_pending_writes(&mut chip);
    Applied { chip, answer }
}

pub fn set_timer_irq_state(mut chip: Chip, on: bool) -> Answered
    ensures { result ≡ set_timer_irq_state on chip }
{
    let no = cabinet::set_timer_irq_state(&mut chip, on);
    Answered { chip, no }
}

pub fn inside_timer_irq(mut chip: Chip, inside: bool) -> Answered
    ensures { result ≡ set_timer_irq_state inside chip }
{
    let no = cabinet::inside_timer_irq(&mut chip, inside);
    Answered { chip, no }
}

pub fn trigger_envelope(mut chip: Chip) -> Answered
    ensures { result ≡ trigger_envelope chip }
{
    let no = cabinet::trigger_envelope(&mut chip);
    Answered { chip, no }
}

pub fn set_channel_mute(mut chip: Chip, channel: usize, muted: bool) -> Answered
    ensures { result ≡ set_channel_mute channel muted chip }
{
    let no = cabinet::set_channel_mute(&mut chip, channel, muted);
    Answered { chip, no }
}

pub fn set_drum_sample_override(mut chip: Chip, channel: usize, drum: Drum) -> Answered
    ensures { result ≡ set_drum_sample_override channel drum chip }
{
    let no = cabinet::set_drum_sample_override(&mut chip, channel, drum);
    Answered { chip, no }
}

pub fn compute_next_sample(mut chip: Chip) -> Sampled
    ensures { result ≡ sampled chip }
{
    let answer = cabinet_words::compute_next_sample(&mut chip);
    Sampled { chip, answer }
}

pub fn block(mut chip: Chip, out: &mut [u16]) -> Blocked
    ensures answer { result ≡ blocked (length out.old) chip }
    ensures buffer { out.new ≡ block_buffer out.old chip }
{
    let answer = cabinet_words::block(&mut chip, out);
    Blocked { chip, answer }
}

pub fn read_register(chip: Chip, register: u8) -> Byte
    ensures { result ≡ read_register register chip }
{
    cabinet::read_register(&chip, register)
}

pub fn dump_registers(chip: Chip) -> Bytes
    ensures { result ≡ dump_registers chip }
{
    cabinet::dump_registers(&chip)
}

pub fn read_port(chip: Chip, port: u8) -> Byte
    ensures { result ≡ read_port port chip }
{
    cabinet::read_port(&chip, port)
}

pub fn cpu_cycle(chip: Chip) -> Cycle
    ensures { result ≡ cpu_cycle chip }
{
    cabinet::cpu_cycle(&chip)
}

pub fn pending_write_count(chip: Chip) -> Count
    ensures { result ≡ pending_write_count chip }
{
    cabinet::pending_write_count(&chip)
}

pub fn is_channel_muted(chip: Chip, channel: usize) -> Flag
    ensures { result ≡ is_channel_muted channel chip }
{
    cabinet::is_channel_muted(&chip, channel)
}

pub fn get_channel_outputs(chip: Chip) -> Outputs
    ensures { result ≡ get_channel_outputs chip }
{
    cabinet::get_channel_outputs(&chip)
}
