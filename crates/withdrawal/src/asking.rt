ghost use Rattle.std.specs.Prelude.{◌≡◌, Some};
ghost use Rattle.chain.specs.Outcomes.{outcome_of};
ghost use Rattle.withdrawal.specs.Order.{asked};
ghost use Rattle.withdrawal.specs.Computed.{held_at};
ghost use Rattle.store.specs.Slots.{id_at};
ghost use Rattle.store.specs.Search.{find};

use bitfields::reading::window;
use octets::refusals::Refusal;
use records::layout::ID_LENGTH;
use store::search::find_id;
use store::sizes::STORE_LENGTH;
use store::slot::Slot;
use store::withdrawals::withdrawn;
use validity::valid;

// A slot that its id finds, unless it is withdrawn.
#[tactic(auto, unfolding(crate::specs::Computed::held_at))]
fn held(store: &[u8; STORE_LENGTH], slot: Slot) -> Result<Slot, Refusal>
    requires { find store.now (id_at store.now slot) ≡ Some slot }
    ensures { outcome_of result ≡ held_at store.now slot }
{
    if withdrawn(store, slot) {
        return Err(Refusal::Withdrawn);
    }
    Ok(slot)
}

// The slot of the certificate that is asked for, by the tests that list and withdraw share.
pub fn ask(store: &[u8; STORE_LENGTH], id: &[u8]) -> Result<Slot, Refusal>
    ensures { outcome_of result ≡ asked store.now id.now }
{
    let Some(id) = id.as_array::<ID_LENGTH>() else {
        return Err(Refusal::BadCall);
    };
    if !valid(store) {
        return Err(Refusal::BadStore);
    }
    match find_id(store, window(id, 0)) {
        None => Err(Refusal::Unknown),
        Some(slot) => held(store, slot),
    }
}
