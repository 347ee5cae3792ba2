// A script's line as a call, with what the call takes. oracle/README.md, "A script". Nothing here knows a chip.
#![tactic(auto)]

mod lines;
mod settings;

pub use lines::line_of;
pub use settings::Setting;

#[derive(Clone, Copy)]
pub enum Line {
    // passed over
    Comment,
    Call(Call),
}

#[derive(Clone, Copy)]
pub enum Call {
    New(u32, u32),
    Make(u32, u32, u8),
    Default,
    Change(Change),
    Apply(Apply),
    Look(Look),
    Word,
    Block(usize),
    Waiting(u8),
    Lent(bool),
    Set(Setting),
}

// A call that answers its number alone.
#[derive(Clone, Copy)]
pub enum Change {
    Reset,
    Port(u8, u8),
    Cycle(u64),
    Sync(u64),
    Irq(bool),
    InsideIrq(bool),
    Trigger,
    Mute(usize, bool),
    Drum(usize, Option<f32>),
}

// A call that applies register writes, and answers what they changed.
#[derive(Clone, Copy)]
pub enum Apply {
    Write(u8, u8),
    PortNow(u8, u8),
    Load([u8; 16]),
    Flush,
}

// A call that only reads.
#[derive(Clone, Copy)]
pub enum Look {
    Register(u8),
    Registers,
    Port(u8),
    Cycle,
    Pending,
    Muted(usize),
    Outputs,
}
