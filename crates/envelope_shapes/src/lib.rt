// The envelope's shapes: where a shape's row begins, and the entry at a place of a row, worked out from the shape's four bits. 01, "One tick,
// one word", and Yamaha's manual; the crate's tables.rs has 1,280 entries in their place (02, request 06).
#![tactic(auto)]

ghost use Rattle.std.specs.Prelude.{◌≡◌, ◌%◌, ◌<◌};
ghost use Rattle.envelope_shapes.specs.Shapes.{ramp, by_bits, first_of_row, offset_of, envelope_entry};

#[rattlefmt::skip]
const SHAPE_TO_ENV: [u8; 16] = [
    0, 0, 0, 0, 1, 1, 1, 1, 2, 3, 4, 5, 6, 7, 8, 9,
];

// Where a shape's row begins; bits above the low four do not count.
pub fn shape_offset(shape: u8) -> u16
    ensures { result ≡ offset_of (shape % 16) }
{
    let four = (shape % 16) as usize;
    SHAPE_TO_ENV[four] as u16 * 128
}

// `place` is the position plus 64.
pub fn envelope_entry(offset: u16, place: usize) -> u8
    ensures { result ≡ envelope_entry offset place }
{
    let shape = first_of_row(offset / 128);
    let k = place / 32;
    let j = (place % 32) as u8;
    by_bits(
        shape / 8 % 2 == 1,
        shape / 4 % 2 == 1,
        shape / 2 % 2 == 1,
        shape % 2 == 1,
        k,
        j,
    )
}

// Shapes 0..3 share a row, and 4..7; the rest have one each.
fn first_of_row(row: u16) -> u16
    requires { row < 512 }
    ensures { result ≡ first_of_row row }
{
    if row < 2 { 4 * row } else { row + 6 }
}

// 01: "Envelope entry for shape bits C A L H"
fn by_bits(c: bool, a: bool, l: bool, h: bool, k: usize, j: u8) -> u8
    requires { j < 32 }
    ensures { result ≡ by_bits c a l h k j }
{
    if !c {
        if k == 0 {
            return ramp(a, j);
        }
        return 0;
    }
    if !h {
        return ramp(a != (l && k % 2 == 1), j);
    }
    if k == 0 {
        return ramp(a, j);
    }
    if a != l {
        return 31;
    }
    0
}

// 01: "rising means j, falling 31 - j"
fn ramp(rises: bool, j: u8) -> u8
    requires { j < 32 }
    ensures { result ≡ ramp rises j }
{
    if rises { j } else { 31 - j }
}
