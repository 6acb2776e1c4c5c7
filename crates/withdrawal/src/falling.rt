ghost use Rattle.std.specs.Prelude.{◌≡◌, true};
ghost use Rattle.store.specs.Slots.{slot_count};
ghost use Rattle.validity.specs.Valid.{valid_store};
ghost use Rattle.slot_lists.specs.Computed.{bits_from};
ghost use Rattle.withdrawal.specs.Computed.{falls_with};

use chain::subjects::Conditions;
use chain::walking::{FOLLOWERS, walk_at};
use slot_lists::joined;
use store::sizes::{SLOTS, STORE_LENGTH};
use store::slot::Slot;
use store::slots::filled;

// Whether the certificate in a slot stands at the second before slot c is withdrawn and not after. Most certificates stand after too, so
// that walk comes first.
fn falls_at(store: &[u8; STORE_LENGTH], slot: Slot, second: u64, c: Slot) -> bool
    requires { valid_store store.now ≡ true }
    ensures { result ≡ falls_with store.now second c slot }
{
    let before = Conditions {
        second,
        place: None,
        gone: None,
    };
    let after = Conditions {
        second,
        place: None,
        gone: Some(c),
    };
    if !filled(store, slot) {
        return false;
    }
    if walk_at(store, slot, &after, FOLLOWERS).is_ok() {
        return false;
    }
    walk_at(store, slot, &before, FOLLOWERS).is_ok()
}

// The slots whose certificates fall by the withdrawal of slot c, as a set: bit i is slot i.
pub fn slot_set(store: &[u8; STORE_LENGTH], second: u64, c: Slot) -> u64
    requires { valid_store store.now ≡ true }
    ensures { result ≡ bits_from (falls_with store.now second c) 0 slot_count }
{
    let mut set = 0;
    for i in 0..SLOTS {
        set = joined(set, i, falls_at(store, Slot::at(i), second, c));
    }
    set
}
