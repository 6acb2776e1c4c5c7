ghost use Rattle.std.specs.Prelude.{◌≡◌};
ghost use Rattle.octets.specs.Outcomes.{answer_of};
ghost use Rattle.chain.specs.Stored.{walk_number};
ghost use Rattle.chain.specs.Computed.{place_number, own_number, up_of, upward, Leads, walked_on};
ghost use Rattle.store.specs.Withdrawn.{withdrawn_in};

use crate::steps::place_in;
use crate::subjects::{Conditions, Subject};
use crate::walking::walk_on;
use geo::Position;
use octets::kinds::ROOT;
use octets::refusals::Refusal;
use scope::Scope;
use store::search::find_id;
use store::sizes::STORE_LENGTH;
use store::slot::Slot;
use store::slots::scope_at;
use store::withdrawals::withdrawn_id;

// The test of the position, if one is asked.
fn place_of(scope: &Scope, place: Option<Position>) -> Result<(), Refusal>
    ensures { answer_of result ≡ place_number place scope.now }
{
    match place {
        None => Ok(()),
        Some(position) => place_in(&scope.region, position),
    }
}

// The tests of a certificate by itself.
fn own(
    store: &[u8; STORE_LENGTH],
    subject: &Subject,
    second: u64,
    place: Option<Position>,
) -> Result<(), Refusal>
    ensures { answer_of result ≡ own_number (withdrawn_in store.now) second place subject.now }
{
    if withdrawn_id(store, subject.id) {
        return Err(Refusal::Withdrawn);
    }
    let scope = &subject.scope;
    if second < u64::from(scope.start) {
        return Err(Refusal::OutsidePeriod);
    }
    if scope.end <= second {
        return Err(Refusal::OutsidePeriod);
    }
    place_of(scope, place)
}

// The step from a certificate to its issuer.
fn step_from(store: &[u8; STORE_LENGTH], subject: &Subject) -> Result<Option<Slot>, Refusal>
    ensures { up_of result ≡ upward store.now subject.now }
{
    match find_id(store, subject.issuer) {
        None => Err(Refusal::Unknown),
        Some(issuer) => {
            subject.scope.issued_by(&scope_at(store, issuer))?;
            Ok(Some(issuer))
        }
    }
}

// A certificate at the start of a walk, stored or not: its own tests, then its end at a root (none follows) or the step to its issuer in
// the store, if one more may follow.
fn first_step(
    store: &[u8; STORE_LENGTH],
    subject: &Subject,
    second: u64,
    place: Option<Position>,
    left: u8,
) -> Result<Option<Slot>, Refusal>
    ensures { Leads store.now left (up_of result) × (walked_on (withdrawn_in store.now) store.now second place left (up_of result) ≡ walk_number (withdrawn_in store.now) store.now second place left subject.now) }
{
    own(store, subject, second, place)?;
    if subject.scope.kind == ROOT {
        return Ok(None);
    }
    if left == 0 {
        return Err(Refusal::ChainTooLong);
    }
    step_from(store, subject)
}

// The walk from a certificate, stored or not; at most `left` may follow it. Those are stored, so from the issuer on it goes by slots.
pub fn walk(
    store: &[u8; STORE_LENGTH],
    subject: &Subject,
    second: u64,
    place: Option<Position>,
    left: u8,
) -> Result<(), Refusal>
    ensures { answer_of result ≡ walk_number (withdrawn_in store.now) store.now second place left subject.now }
{
    let first = first_step(store, subject, second, place, left);
    let asked = Conditions {
        second,
        place,
        gone: None,
    };
    walk_on(store, first, &asked, left)
}
