// Numbers from place to place, and generators from call to call: each step is shown.
ghost use Rattle.std.specs.Prelude.{◌<◌};

use crate::shown;
use generators::Generators;
use std::io;

pub fn tables(rt: &impl Print) -> io::Result<()> {
    print!(rt; "register masks:")?;
    for register in 0..14 {
        let mask = tables::register_mask(register);
        print!(rt; " {mask:x}")?;
    }
    print!(rt; "\ngate masks of 0 to 15:")?;
    for bits in 0..16 {
        let mask = tables::gate_mask(bits);
        print!(rt; " {mask:x}")?;
    }
    print!(rt; "\noffsets of shapes 0 to 31:")?;
    for shape in 0..32 {
        let offset = envelope_shapes::shape_offset(shape);
        print!(rt; " {offset}")?;
    }
    print!(rt; "\nlevels:")?;
    for index in 0..32 {
        let level = table_level(index);
        print!(rt; " {level}")?;
    }
    for row in 0..10 {
        entries(rt, row)?;
    }
    print!(rt; "\nseeds of 0, 1, 2, 2^16, 2^31, 2^32 - 1:")?;
    for seed in [0, 1, 2, 65536, 0x8000_0000, 0xffff_ffff] {
        let first = power_on::random_seed(seed);
        print!(rt; " {first}")?;
    }
    let edges = power_on::power_on_edges();
    print!(rt; "\npower-on edges: {edges:x}")
}

fn entries(rt: &impl Print, row: u32) -> io::Result<()>
    requires { row < 10 }
{
    print!(rt; "\nrow {row}:")?;
    for place in 0..128 {
        let entry = table_entry(row, place);
        print!(rt; " {entry}")?;
    }
    Ok(())
}

// Calls one after the other, each on what the one before it left.
pub fn generators(rt: &impl Print) -> io::Result<()> {
    let mut g = Generators::new();
    for i in 0..24 {
        g = after(g, i);
        print!(rt; "\ngenerators {i}:")?;
        shown::tone(rt, g.a)?;
        shown::tone(rt, g.b)?;
        shown::tone(rt, g.c)?;
        let edges = g.edges();
        print!(rt; " {edges:x}")?;
        shown::noise(rt, g.noise)?;
        shown::envelope(rt, g.envelope)?;
    }
    Ok(())
}

fn after(g: Generators, i: u8) -> Generators {
    match i {
        0 => g,
        1 => g.set_tone_period(0, 2, false),
        2 => g.set_tone_period(1, 3, false),
        3 => g.set_tone_period(2, 1, true),
        // no such channel
        4 => g.set_tone_period(3, 0, true),
        5 => with_noise_and_envelope(g),
        18 => g.set_tone_period(0, 0, true),
        // C waits since step 3, A since step 18
        19 | 20 => g.apply_pending_resets(),
        21 => g.reset(),
        _ => g.tick(),
    }
}

fn with_noise_and_envelope(mut g: Generators) -> Generators {
    g.noise = g.noise.set_period(3);
    g.envelope = g.envelope.set_period(2).set_shape(14);
    g
}

pub fn levels(rt: &impl Print) -> io::Result<()> {
    for envelope in [0, 17, 31] {
        print!(rt; "\nvolumes 0 to 31 with envelope {envelope}:")?;
        for volume in 0..32 {
            let level = levels::level_used(0, volume, envelope);
            print!(rt; " {level}")?;
        }
    }
    for gate in [0, 0x15, 0x1f, 0xffff_ffff] {
        print!(rt; "\nindices 0 to 31 gated by {gate}:")?;
        for index in 0..32 {
            let level = levels::gated_level(index, gate);
            print!(rt; " {level}")?;
        }
    }
    Ok(())
}

// 99 where the table has another: it has none.
fn table_level(i: u8) -> u64
    requires { i < 32 }
{
    let level = tables::level(i);
    if tables::level_table()[i as usize] != level {
        return 99;
    }
    level as u64
}

// 99 where the row's wave gives another: none does.
fn table_entry(row: u32, place: u8) -> u64
    requires { row < 10 }
{
    let offset = row as u16 * 128;
    let entry = envelope_shapes::envelope_entry(offset, place as usize);
    let wave = envelope_wave::wave_of(offset);
    if wave.entry(place as usize) != entry {
        return 99;
    }
    entry as u64
}
