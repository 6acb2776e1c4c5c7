ghost use Rattle.std.specs.Prelude.{◌≡◌, Some};
ghost use Rattle.octets.specs.Outcomes.{answer_of};
ghost use Rattle.records.specs.Records.{record_of};
ghost use Rattle.store.specs.Slots.{slot_of, id_at};
ghost use Rattle.store.specs.Search.{find};
ghost use Rattle.signing.specs.Signers.{subject_of};
ghost use Rattle.signing.specs.Computed.{entitled_number};

use crate::fields::{generated, its_aid};
use crate::places::position_of;
use crate::times::SECOND;
use chain::issuers::allows_at;
use chain::signers::walk;
use chain::subjects::{Conditions, Subject};
use chain::walking::{FOLLOWERS, walk_at};
use entries::as_number;
use geo::Position;
use headers::fields::Fields;
use octets::kinds::TICKET;
use octets::refusals::Refusal;
use records::Record;
use store::fields::kind_at;
use store::sizes::STORE_LENGTH;
use store::slot::Slot;

// What a walk reads of a record.
#[tactic(auto, unfolding(crate::specs::Signers::subject_of))]
fn subject_of(r: &Record) -> Subject
    ensures { result ≡ subject_of r.now }
{
    Subject {
        id: as_number(r.id),
        issuer: as_number(r.issuer),
        scope: r.scope,
    }
}

// The tests of a stored signer: its kind, the walk from it, its_aid.
// Kept: beside `entitled`, for which the record would be decoded: a chain of eight took a tenth longer to decide.
#[tactic(auto, using(octets::proofs::Outcomes::reading, chain::proofs::Own::none_also, store::proofs::Found::find_finds, crate::proofs::Entitling::slot_subject, crate::proofs::Entitling::entitled_tests), unfolding(records::specs::Records::record_of, records::specs::Records::scope_of))]
pub fn entitled_at(
    store: &[u8; STORE_LENGTH],
    slot: Slot,
    fields: &Fields,
    own: Position,
) -> Result<(), Refusal>
    requires { find store.now (id_at store.now slot) ≡ Some slot }
    ensures { answer_of result ≡ entitled_number store.now fields.now own (record_of (slot_of store.now slot)) }
{
    if kind_at(store, slot) != TICKET {
        return Err(Refusal::WrongKind);
    }
    let asked = Conditions {
        second: generated(fields) / SECOND,
        place: Some(position_of(fields.location, own)),
        gone: None,
    };
    walk_at(store, slot, &asked, FOLLOWERS)?;
    if !allows_at(store, slot, its_aid(fields)) {
        return Err(Refusal::NotPermitted);
    }
    Ok(())
}

// The same of a signer that need not be stored.
#[tactic(auto, using(octets::proofs::Outcomes::reading, crate::proofs::Entitling::entitled_tests))]
pub fn entitled(
    store: &[u8; STORE_LENGTH],
    r: &Record,
    fields: &Fields,
    own: Position,
) -> Result<(), Refusal>
    ensures { answer_of result ≡ entitled_number store.now fields.now own r.now }
{
    if r.scope.kind != TICKET {
        return Err(Refusal::WrongKind);
    }
    let second = generated(fields) / SECOND;
    let place = Some(position_of(fields.location, own));
    walk(store, &subject_of(r), second, place, FOLLOWERS)?;
    if !r.scope.permissions.allows(its_aid(fields)) {
        return Err(Refusal::NotPermitted);
    }
    Ok(())
}
