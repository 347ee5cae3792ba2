// The small tables of tables.rs, each behind a lookup that is promised by its rule in 01. (The envelope's entries are worked out, by `envelope_shapes`; a register's mask is, from its width.)
#![tactic(auto)]

ghost use Rattle.std.specs.Prelude.{◌≡◌, ◌%◌, ◌<◌};
ghost use Rattle.tables.specs.Masks.{register_mask, gate_mask};
ghost use Rattle.tables.specs.Levels.{levels, level_of};

// How many bits each register stores, a hex digit to each, R0 in the lowest: a table of masks would be rebuilt at every write.
const WIDTHS: u64 = 0x48_8555_6548_4848;

#[rattlefmt::skip]
const MASKS: [u32; 8] = [
    0x0000, 0x001f, 0x03e0, 0x03ff, 0x7c00, 0x7c1f, 0x7fe0, 0x7fff,
];

// A `static` lies in one place, so that a word reads it there: a `const` table is rebuilt at each use.
#[rattlefmt::skip]
static LEVELS: [u16; 32] = [
    50, 60, 71, 85, 101, 120, 143, 170, 202, 241, 287, 341, 405, 482, 574, 682,
    811, 965, 1148, 1365, 1623, 1930, 2296, 2730, 3247, 3861, 4592, 5461, 6494, 7723, 9184, 10922,
];

// The bits of a register that are stored.
pub fn register_mask(register: usize) -> u8
    requires { register < 14 }
    ensures { result ≡ register_mask register }
{
    let width = (WIDTHS >> (4 * register as u64)) % 16;
    ((1u32 << (width as u32)) - 1) as u8
}

// The mask bits of three gate bits, A first; bits above them do not count.
pub fn gate_mask(bits: u8) -> u32
    ensures { result ≡ gate_mask (bits % 8) }
{
    let three = (bits % 8) as usize;
    MASKS[three]
}

// The 32 levels.
pub fn level_table() -> [u16; 32]
    ensures { result ≡ levels }
{
    LEVELS
}

// One of them.
pub fn level(index: u8) -> u16
    requires { index < 32 }
    ensures { result ≡ level_of index }
{
    let at = index as usize;
    LEVELS[at]
}
