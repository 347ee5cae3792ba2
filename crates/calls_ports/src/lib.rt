// The ports. 01, "Registers and ports".
#![tactic(auto)]

ghost use Rattle.std.specs.Prelude.{◌≡◌};
ghost use Rattle.calls_ports.specs.Ports.{queued, read_port, write_port, wrote_port_immediate};
ghost use Rattle.chip_parts.specs.Parts.{with_selection};

use answers::{Answered, Byte, Written};
use chip::Chip;
use queue::{Pushed, Write};

// Port bit 1 clear selects at once; set, it queues the write. The step says which slot is written; the ring pushes there.
pub fn write_port(chip: Chip, port: u8, value: u8) -> Answered
    ensures { result ≡ write_port port value chip }
{
    let ok = chip::in_range(chip);
    let step = steps_ports::write_port(
        ok,
        chip.core.selected,
        chip.core.stamp,
        chip.queue.head,
        chip.queue.count,
        port,
        value,
    );
    if step.at >= steps_ports::NO_SLOT {
        let after = with_selection(chip, step.selected);
        return Answered {
            chip: after,
            no: step.no,
        };
    }
    let write = Write {
        stamp: step.stamp,
        register: step.register,
        value: step.value,
    };
    queued(chip, chip.queue.push(write))
}

pub fn write_port_immediate(chip: Chip, port: u8, value: u8) -> Written
    ensures { result ≡ wrote_port_immediate port value chip }
{
    let ok = chip::in_range(chip);
    let r = steps_voice::write_port_immediate(ok, chip.core.voice, chip.core.selected, port, value);
    let after = with_selection(chip_parts::with_voice(chip, r.voice), r.selected);
    let answer = r.answer;
    Written {
        chip: after,
        answer,
    }
}

pub fn read_port(chip: Chip, port: u8) -> Byte
    ensures { result ≡ read_port port chip }
{
    let ok = chip::in_range(chip);
    let voice = chip.core.voice;
    let bytes = voice.registers;
    steps_registers::read_port(ok, bytes, chip.core.selected, port)
}

fn with_selection(chip: Chip, selected: u8) -> Chip
    ensures { result ≡ with_selection selected chip }
{
    let mut after = chip;
    after.core.selected = selected;
    after
}

fn queued(chip: Chip, pushed: Pushed) -> Answered
    ensures { result ≡ queued chip pushed }
{
    let core = chip.core;
    let queue = pushed.queue;
    let after = Chip { core, queue };
    Answered {
        chip: after,
        no: pushed.no,
    }
}
