ghost use Rattle.std.specs.Prelude.{◌≡◌, Some};
ghost use Rattle.store.specs.Slots.{GONE, id_at};
ghost use Rattle.store.specs.Search.{find};
ghost use Rattle.store.specs.Withdrawn.{withdrawn_in};
ghost use Rattle.store.specs.Laws.{with_state};

use crate::fields::state_at;
use crate::search::find_id;
use crate::sizes::STORE_LENGTH;
use crate::slot::Slot;
use crate::states::GONE;
use bitfields::writing::put;
use records::layout::{SLOT_BITS, STATE_AT, STATE_WIDTH};

// Whether the certificate in a slot, which its id finds, counts as withdrawn.
#[tactic(auto, unfolding(crate::specs::Withdrawn::withdrawn_in))]
pub fn withdrawn(store: &[u8; STORE_LENGTH], slot: Slot) -> bool
    requires { find store.now (id_at store.now slot) ≡ Some slot }
    ensures { result ≡ withdrawn_in store.now (id_at store.now slot) }
{
    state_at(store, slot) == GONE
}

// Whether the certificate with an id counts as withdrawn.
pub fn withdrawn_id(store: &[u8; STORE_LENGTH], id: u64) -> bool
    ensures { result ≡ withdrawn_in store.now id }
{
    match find_id(store, id) {
        None => false,
        Some(slot) => withdrawn(store, slot),
    }
}

// The state of a slot becomes withdrawn.
pub fn mark_withdrawn(store: &mut [u8; STORE_LENGTH], slot: Slot)
    ensures { store.new ≡ with_state store.old slot GONE }
{
    put(
        store,
        slot.index() * SLOT_BITS + STATE_AT,
        STATE_WIDTH,
        u64::from(GONE),
    );
}
