ghost use Rattle.std.specs.Prelude.{◌≡◌, true, List, ℕ, ◌≤◌, length, Ok};
ghost use Rattle.order.specs.Steps.{gives};
ghost use Rattle.octets.specs.Outcomes.{answer_of};
ghost use Rattle.store.specs.Slots.{slot_count, filled_at};
ghost use Rattle.validity.specs.Valid.{valid_store};
ghost use Rattle.slot_lists.specs.Listings.{listing};
ghost use Rattle.withdrawal.specs.Order.{listed_for, page, withdrawal};
ghost use Rattle.withdrawal.specs.Demand.{BothCalls};

use crate::asking::ask;
use crate::falling::slot_set;
use octets::refusals::Refusal;
use slot_lists::{Listed, write_slots};
use store::sizes::{SLOTS, STORE_LENGTH};
use store::slot::Slot;
use store::withdrawals::mark_withdrawn;

// What list answers, and then withdraw.
#[derive(Clone, Copy)]
pub struct Both {
    pub page: Listed,
    pub withdrew: Result<(), Refusal>,
}

// The page's list for the certificate held in slot c.
fn draw(store: &[u8; STORE_LENGTH], c: Slot, second: u64, lent: &mut [u8]) -> u32
    requires { (valid_store store.now ≡ true) × (filled_at store.now c ≡ true) × (slot_count ≤ length lent.old) }
    ensures { listing (Ok result) lent.new store.now ≡ listed_for store.now second lent.old (gives c) }
{
    let set = slot_set(store, second, c);
    write_slots(set, lent);
    set.count_ones()
}

// The page's list: the slots of the certificates that stand at the second and do not after the withdrawal of this id.
pub fn list(store: &[u8], id: &[u8], second: u32, lent: &mut [u8]) -> Listed
    ensures { listing result lent.new store.now ≡ page store.now id.now second lent.old }
{
    if lent.len() < SLOTS {
        return Err(Refusal::BadCall);
    }
    let Some(store) = store.as_array::<STORE_LENGTH>() else {
        return Err(Refusal::BadCall);
    };
    let c = ask(store, id)?;
    Ok(draw(store, c, u64::from(second), lent))
}

// The withdrawal by id.
pub fn withdraw(store: &mut [u8], id: &[u8]) -> Result<(), Refusal>
    ensures { ◌≡◌ {A = ℕ × List ℕ} (answer_of result, store.new) (withdrawal store.old id.now) }
{
    let Some(store) = store.as_mut_array::<STORE_LENGTH>() else {
        return Err(Refusal::BadCall);
    };
    let c = ask(store, id)?;
    mark_withdrawn(store, c);
    Ok(())
}

// Demand 3 as code: the page is drawn, then the withdrawal is made, on the same store and id.
pub fn list_then_withdraw(store: &mut [u8], id: &[u8], second: u32, lent: &mut [u8]) -> Both
    ensures { BothCalls store.old id.now second lent.old (listing result.page lent.new store.old) (answer_of result.withdrew, store.new) }
{
    let page = list(store, id, second, lent);
    let withdrew = withdraw(store, id);
    Both { page, withdrew }
}
