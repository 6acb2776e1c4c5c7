ghost use Rattle.std.specs.Prelude.{◌≡◌, List, ℕ};
ghost use Rattle.slot_lists.specs.Listings.{listing};
ghost use Rattle.overview.specs.Order.{SlotReading, slot_answer, slot_reading, standing_listing};

use crate::levels::standing_set;
use octets::refusals::Refusal;
use records::Record;
use slot_lists::{Listed, write_slots};
use store::sizes::{SLOTS, STORE_LENGTH};
use store::slot::Slot;
use store::slots::{filled, record_at};
use validity::valid;

// All that a slot holds.
#[tactic(auto, using(std::proofs::lemmas::Bool::Decides::nat_tests), unfolding(crate::specs::Order::slot_reading, order::specs::Steps::run))]
pub fn stored(store: &[u8], slot: usize) -> Result<Record, Refusal>
    ensures { ◌≡◌ {A = SlotReading × List ℕ} (slot_answer result, store.now) (slot_reading store.now slot, store.now) }
{
    let Some(store) = store.as_array::<STORE_LENGTH>() else {
        return Err(Refusal::BadCall);
    };
    let Some(slot) = Slot::new(slot) else {
        return Err(Refusal::BadCall);
    };
    if !valid(store) {
        return Err(Refusal::BadStore);
    }
    if !filled(store, slot) {
        return Err(Refusal::Unknown);
    }
    Ok(record_at(store, slot))
}

// The slots of the certificates that stand at a second.
#[tactic(auto, using(std::proofs::lemmas::Bool::Decides::nat_tests), unfolding(crate::specs::Order::standing_listing, order::specs::Steps::run))]
pub fn standing(store: &[u8], second: u32, lent: &mut [u8]) -> Listed
    ensures { listing result lent.new store.now ≡ standing_listing store.now second lent.old }
{
    if lent.len() < SLOTS {
        return Err(Refusal::BadCall);
    }
    let Some(store) = store.as_array::<STORE_LENGTH>() else {
        return Err(Refusal::BadCall);
    };
    if !valid(store) {
        return Err(Refusal::BadStore);
    }
    let set = standing_set(store, u64::from(second));
    write_slots(set, lent);
    Ok(set.count_ones())
}
