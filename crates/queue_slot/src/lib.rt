// One slot of a ring of waiting writes, written where the ring lies. 01, "Registers and ports".
#![tactic(auto)]

ghost use Rattle.std.specs.Prelude.{◌≡◌};
ghost use Rattle.queue_slot.specs.Slot.{put_at};

// A place from 256 on is no slot, and then nothing is written.
#[tactic(auto, unfolding(crate::specs::Slot::put_at))]
pub fn put<T: Copy>(slots: &mut [T; 256], at: usize, value: T)
    ensures { slots.new ≡ put_at at value slots.old }
{
    if at < 256 {
        slots[at] = value;
    }
}
