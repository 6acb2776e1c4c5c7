// Sets of slots as lists in a lent buffer: what list and standing answer.
#![tactic(auto)]

ghost use Rattle.std.specs.Prelude.{◌≡◌, ◌+◌, ◌*◌, ◌^◌, ◌≤◌, ◌<◌, length};
ghost use Rattle.octets.specs.Buffers.{with_front};
ghost use Rattle.store.specs.Slots.{slot_count};
ghost use Rattle.slot_lists.specs.Computed.{bit, slots_in};

use octets::refusals::Refusal;
use store::sizes::SLOTS;

// How many slots the list has, or why none is listed.
pub type Listed = Result<u32, Refusal>;

// A set of the slots below i as a number, whose bit j is slot j, and with slot i too if it is a member.
pub fn joined(set: u64, i: usize, member: bool) -> u64
    requires { (i < slot_count) × (set < 2 ^ i) }
    ensures { result ≡ set + bit member * 2 ^ i }
{
    if member { set + (1 << i) } else { set }
}

// The slots of a set, whose bit i is slot i, go to the front of a lent list, in slot order.
pub fn write_slots(set: u64, lent: &mut [u8])
    requires { slot_count ≤ length lent.old }
    ensures { lent.new ≡ with_front (slots_in set 0 slot_count) lent.old }
{
    let mut rest = set;
    let mut k = 0;
    for slot in 0..SLOTS as u8 {
        if rest == 0 {
            return;
        }
        if rest % 2 == 1 {
            lent[k] = slot;
            k += 1;
        }
        rest /= 2;
    }
}
