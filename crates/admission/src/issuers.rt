#![tactic(auto, using(crate::proofs::Tests::issuer_tests))]

ghost use Rattle.std.specs.Prelude.{◌≡◌, Some};
ghost use Rattle.octets.specs.Outcomes.{answer_of};
ghost use Rattle.admission.specs.Computed.{below_number, issuer_number};
ghost use Rattle.store.specs.Slots.{id_at};
ghost use Rattle.store.specs.Search.{find};

use octets::refusals::Refusal;
use scope::Scope;
use store::search::find_id;
use store::sizes::STORE_LENGTH;
use store::slot::Slot;
use store::slots::scope_at;
use store::withdrawals::withdrawn;

// The tests of an issuer that is stored, in a slot that its id finds.
fn below(store: &[u8; STORE_LENGTH], slot: Slot, subject: &Scope) -> Result<(), Refusal>
    requires { find store.now (id_at store.now slot) ≡ Some slot }
    ensures { answer_of result ≡ below_number store.now subject.now slot }
{
    if withdrawn(store, slot) {
        return Err(Refusal::Withdrawn);
    }
    subject.issued_by(&scope_at(store, slot))
}

// The tests of the issuer with an id.
pub fn below_id(store: &[u8; STORE_LENGTH], id: u64, subject: &Scope) -> Result<(), Refusal>
    ensures { answer_of result ≡ issuer_number store.now id subject.now }
{
    let slot = find_id(store, id).ok_or(Refusal::Unknown)?;
    below(store, slot, subject)
}
