// The calls to a chip that is lent. They stand beside those of `value`, name by name: a generic form of both would name each call once more.
use crate::after::After;
use crate::desk::Desk;
use crate::said::Said;
use answers::{Answered, Blocked, Sampled};
use channel::Drum;
use chip::Chip;
use script_calls::{Apply, Change, Look};

pub enum Lent {}

impl Desk for Lent {
    fn change(chip: Chip, change: Change) -> Answered {
        match change {
            Change::Reset => cabinet_host::reset(chip),
            Change::Port(port, value) => cabinet_host::write_port(chip, port, value),
            Change::Cycle(cycle) => cabinet_host::set_cpu_cycle(chip, cycle),
            Change::Sync(cycle) => cabinet_host::sync_sample_cycle(chip, cycle),
            Change::Irq(on) => cabinet_host::set_timer_irq_state(chip, on),
            Change::InsideIrq(inside) => cabinet_host::inside_timer_irq(chip, inside),
            Change::Trigger => cabinet_host::trigger_envelope(chip),
            Change::Mute(channel, muted) => cabinet_host::set_channel_mute(chip, channel, muted),
            Change::Drum(channel, sample) => cabinet_host::set_drum_sample_override(
                chip,
                channel,
                sample.map_or(Drum::Off, Drum::Sample),
            ),
        }
    }

    fn apply(chip: Chip, apply: Apply) -> After<'static> {
        match apply {
            Apply::Write(register, value) => After::from(cabinet_host::write_register(
                chip, register, value,
            )),
            Apply::PortNow(port, value) => After::from(cabinet_host::write_port_immediate(
                chip, port, value,
            )),
            Apply::Load(bytes) => After::from(cabinet_host::load_registers(chip, bytes)),
            Apply::Flush => After::from(cabinet_host::flush_pending_writes(chip)),
        }
    }

    fn look(chip: Chip, look: Look) -> Said<'static> {
        match look {
            Look::Register(register) => Said::from(cabinet_host::read_register(chip, register)),
            Look::Registers => Said::from(cabinet_host::dump_registers(chip)),
            Look::Port(port) => Said::from(cabinet_host::read_port(chip, port)),
            Look::Cycle => Said::from(cabinet_host::cpu_cycle(chip)),
            Look::Pending => Said::from(cabinet_host::pending_write_count(chip)),
            Look::Muted(channel) => Said::from(cabinet_host::is_channel_muted(chip, channel)),
            Look::Outputs => Said::from(cabinet_host::get_channel_outputs(chip)),
        }
    }

    fn word(chip: Chip) -> Sampled {
        cabinet_host::compute_next_sample(chip)
    }

    fn block(chip: Chip, words: &mut [u16]) -> Blocked {
        cabinet_host::block(chip, words)
    }
}
