// The chip's record as a C or Rust host owns it: that of `chip`, but for the drum, which is a flag and a level, as the kit exports no enum.
#![tactic(auto)]

ghost use Rattle.std.specs.Prelude.{◌≡◌};
ghost use Rattle.c_record.specs.Record.{channel_of, chip_of, core_of, drum_of, record_channel, record_core, record_drum, record_of};

use channel::{Channel, Drum};
use chip::{Chip, Clocks, Core};
use queue::Queue;
use registers::Voice;
use three_channels::Channels;

// A drum that is off has no level: `sample` then says nothing.
#[repr(C)]
#[derive(Clone, Copy)]
pub struct RecordDrum {
    pub on: bool,
    pub sample: f32,
}

#[repr(C)]
#[derive(Clone, Copy)]
pub struct RecordChannel {
    pub muted: bool,
    pub drum: RecordDrum,
    pub output: f32,
    pub amplitude: f32,
}

#[repr(C)]
#[derive(Clone, Copy)]
pub struct RecordCore {
    pub clocks: Clocks,
    pub voice: Voice,
    pub a: RecordChannel,
    pub b: RecordChannel,
    pub c: RecordChannel,
    pub selected: u8,
    pub variant: u8,
    pub accumulator: u32,
    pub stamp: u64,
    pub start: u64,
}

#[repr(C)]
#[derive(Clone, Copy)]
pub struct Record {
    pub core: RecordCore,
    pub queue: Queue,
}

// What `load_registers` is handed: C passes no array by value.
#[repr(C)]
#[derive(Clone, Copy)]
pub struct Registers {
    pub bytes: [u8; 16],
}

impl From<Record> for Chip {
    ghost from_gives = { λ lent r. r ≡ chip_of lent };

    fn from(lent: Record) -> Chip {
        let core = Core::from(lent.core);
        let queue = lent.queue;
        Chip { core, queue }
    }
}

impl From<Chip> for Record {
    ghost from_gives = { λ chip r. r ≡ record_of chip };

    fn from(chip: Chip) -> Record {
        let core = RecordCore::from(chip.core);
        let queue = chip.queue;
        Record { core, queue }
    }
}

impl From<RecordDrum> for Drum {
    ghost from_gives = { λ drum r. r ≡ drum_of drum };

    #[tactic(auto, unfolding(crate::specs::Record::drum_of))]
    fn from(drum: RecordDrum) -> Drum {
        if drum.on {
            return Drum::Sample(drum.sample);
        }
        Drum::Off
    }
}

impl From<RecordCore> for Core {
    ghost from_gives = { λ core r. r ≡ core_of core };

    #[tactic(auto, unfolding(crate::specs::Record::core_of))]
    fn from(core: RecordCore) -> Core {
        let clocks = core.clocks;
        let voice = core.voice;
        let a = Channel::from(core.a);
        let b = Channel::from(core.b);
        let c = Channel::from(core.c);
        let channels = Channels { a, b, c };
        Core {
            clocks,
            voice,
            channels,
            selected: core.selected,
            variant: core.variant,
            accumulator: core.accumulator,
            stamp: core.stamp,
            start: core.start,
        }
    }
}

impl From<Core> for RecordCore {
    ghost from_gives = { λ core r. r ≡ record_core core };

    #[tactic(auto, unfolding(crate::specs::Record::record_core))]
    fn from(core: Core) -> RecordCore {
        let clocks = core.clocks;
        let voice = core.voice;
        let channels = core.channels;
        let a = RecordChannel::from(channels.a);
        let b = RecordChannel::from(channels.b);
        let c = RecordChannel::from(channels.c);
        RecordCore {
            clocks,
            voice,
            a,
            b,
            c,
            selected: core.selected,
            variant: core.variant,
            accumulator: core.accumulator,
            stamp: core.stamp,
            start: core.start,
        }
    }
}

impl From<RecordChannel> for Channel {
    ghost from_gives = { λ channel r. r ≡ channel_of channel };

    fn from(channel: RecordChannel) -> Channel {
        let drum = Drum::from(channel.drum);
        Channel {
            muted: channel.muted,
            drum,
            output: channel.output,
            amplitude: channel.amplitude,
        }
    }
}

impl From<Channel> for RecordChannel {
    ghost from_gives = { λ channel r. r ≡ record_channel channel };

    fn from(channel: Channel) -> RecordChannel {
        let held = channel.drum;
        let drum = RecordDrum::from(held);
        RecordChannel {
            muted: channel.muted,
            drum,
            output: channel.output,
            amplitude: channel.amplitude,
        }
    }
}

impl From<Drum> for RecordDrum {
    ghost from_gives = { λ drum r. r ≡ record_drum drum };

    #[tactic(auto, unfolding(crate::specs::Record::record_drum))]
    fn from(drum: Drum) -> RecordDrum {
        match drum {
            Drum::Off => RecordDrum {
                on: false,
                sample: 0.0,
            },
            Drum::Sample(sample) => RecordDrum { on: true, sample },
        }
    }
}
