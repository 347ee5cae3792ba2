// What a write by a port that may wait changes of a lent record, stepped by value: `ok` is the test of the record. 01, "Registers and ports".
#![tactic(auto)]

ghost use Rattle.std.specs.Prelude.{◌≡◌};
ghost use Rattle.steps_ports.specs.PortSteps.{port_queued};

// Places of the ring go to 255.
pub const NO_SLOT: usize = 256;

// The selection and the count to store, the slot to write and what to write there, and the call's number.
#[derive(Clone, Copy)]
pub struct PortQueued {
    pub selected: u8,
    pub count: usize,
    pub at: usize,
    pub stamp: u64,
    pub register: u8,
    pub value: u8,
    pub no: u8,
}

pub fn write_port(
    ok: bool,
    selected: u8,
    stamp: u64,
    head: usize,
    count: usize,
    port: u8,
    value: u8,
) -> PortQueued
    ensures { result ≡ port_queued ok selected stamp head count port value }
{
    if !ok {
        return PortQueued {
            selected,
            count,
            at: NO_SLOT,
            stamp,
            register: selected,
            value,
            no: refusals::OUT_OF_RANGE,
        };
    }
    if steps_registers::bit_1_clear(port) {
        return PortQueued {
            selected: value % 16,
            count,
            at: NO_SLOT,
            stamp,
            register: selected,
            value,
            no: refusals::ACCEPTED,
        };
    }
    if count >= 256 {
        return PortQueued {
            selected,
            count,
            at: NO_SLOT,
            stamp,
            register: selected,
            value,
            no: refusals::QUEUE_FULL,
        };
    }
    let more = count + 1;
    let at = (head % 256 + count) % 256;
    PortQueued {
        selected,
        count: more,
        at,
        stamp,
        register: selected,
        value,
        no: refusals::ACCEPTED,
    }
}
