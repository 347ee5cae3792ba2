// A caller's crate, to copy: a chip is made, written to and rendered. Prints the words of examples/worked.dump.
#![tactic(auto)]

ghost use Rattle.std.specs.Prelude.{◌≡◌};
ghost use Rattle.calls_making.specs.Making.{with_clocks};
ghost use Rattle.calls_registers.specs.Stored.{loaded_registers, wrote_register};
ghost use Rattle.calls_words.specs.Blocks.{block_buffer};

use std::io;

fn main(rt: HostRuntime) -> io::Result<()> {
    let tone = [2, 0, 0, 0, 0, 0, 0, 0x3e, 0, 0, 0, 0, 0, 0, 0, 0];
    let mut out = [0u16; 4];
    let no = render(tone, &mut out);
    if no != 0 {
        return println!(rt; "refused={no}");
    }
    for word in &out {
        println!(rt; "{word}")?;
    }
    Ok(())
}

// Answers 0, or the number of the call that was refused. A write answers 0 or 22; 22 leaves the chip, and the block answers it again.
fn render(registers: [u8; 16], out: &mut [u16]) -> u8
    ensures { result ≡ 0 → out.new ≡ block_buffer out.old
        (wrote_register 8 15 (loaded_registers registers (with_clocks 2000000 250000).chip).chip).chip }
{
    let made = calls::with_clocks(2_000_000, 250_000);
    if made.no != 0 {
        return made.no;
    }
    let tone = calls::load_registers(made.chip, registers);
    let loud = calls::write_register(tone.chip, 8, 15);
    let played = calls::block(loud.chip, out);
    played.answer.no
}
