// The chip as its users see it: the record and every call by value, under one name. Each call is proved in the crate it comes from.
#![tactic(auto)]

pub use answers::{
    Answered, Applied, Blocked, Byte, Bytes, Count, Counts, Cycle, Flag, Outputs, Played, Sample,
    Sampled, Written, Wrote,
};
pub use calls_channels::{
    get_channel_outputs, is_channel_muted, set_channel_mute, set_drum_sample_override,
};
pub use calls_cycles::{
    cpu_cycle, flush_pending_writes, pending_write_count, set_cpu_cycle, sync_sample_cycle,
};
pub use calls_effects::{inside_timer_irq, set_timer_irq_state, trigger_envelope};
pub use calls_making::{new, reset, with_clocks, with_variant};
pub use calls_ports::{read_port, write_port, write_port_immediate};
pub use calls_registers::{dump_registers, load_registers, read_register, write_register};
pub use calls_words::{block, compute_next_sample};
pub use channel::Drum;
pub use chip::Chip;
