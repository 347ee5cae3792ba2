// The calls to a chip by value. Those of `lent` say why both stand here.
use crate::after::After;
use crate::desk::Desk;
use crate::said::Said;
use answers::{Answered, Blocked, Sampled};
use channel::Drum;
use chip::Chip;
use script_calls::{Apply, Change, Look};

pub enum ByValue {}

impl Desk for ByValue {
    fn change(chip: Chip, change: Change) -> Answered {
        match change {
            Change::Reset => calls::reset(chip),
            Change::Port(port, value) => calls::write_port(chip, port, value),
            Change::Cycle(cycle) => calls::set_cpu_cycle(chip, cycle),
            Change::Sync(cycle) => calls::sync_sample_cycle(chip, cycle),
            Change::Irq(on) => calls::set_timer_irq_state(chip, on),
            Change::InsideIrq(inside) => calls::inside_timer_irq(chip, inside),
            Change::Trigger => calls::trigger_envelope(chip),
            Change::Mute(channel, muted) => calls::set_channel_mute(chip, channel, muted),
            Change::Drum(channel, sample) => calls::set_drum_sample_override(
                chip,
                channel,
                sample.map_or(Drum::Off, Drum::Sample),
            ),
        }
    }

    fn apply(chip: Chip, apply: Apply) -> After<'static> {
        match apply {
            Apply::Write(register, value) => After::from(calls::write_register(
                chip, register, value,
            )),
            Apply::PortNow(port, value) => After::from(calls::write_port_immediate(
                chip, port, value,
            )),
            Apply::Load(bytes) => After::from(calls::load_registers(chip, bytes)),
            Apply::Flush => After::from(calls::flush_pending_writes(chip)),
        }
    }

    fn look(chip: Chip, look: Look) -> Said<'static> {
        match look {
            Look::Register(register) => Said::from(calls::read_register(chip, register)),
            Look::Registers => Said::from(calls::dump_registers(chip)),
            Look::Port(port) => Said::from(calls::read_port(chip, port)),
            Look::Cycle => Said::from(calls::cpu_cycle(chip)),
            Look::Pending => Said::from(calls::pending_write_count(chip)),
            Look::Muted(channel) => Said::from(calls::is_channel_muted(chip, channel)),
            Look::Outputs => Said::from(calls::get_channel_outputs(chip)),
        }
    }

    fn word(chip: Chip) -> Sampled {
        calls::compute_next_sample(chip)
    }

    fn block(chip: Chip, words: &mut [u16]) -> Blocked {
        calls::block(chip, words)
    }
}
