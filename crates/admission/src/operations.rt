ghost use Rattle.std.specs.Prelude.{◌≡◌, List, ℕ};
ghost use Rattle.octets.specs.Outcomes.{answer_of};
ghost use Rattle.records.specs.Ranges.{InRange};
ghost use Rattle.admission.specs.Order.{wanted, entered, installed, admitted};
ghost use Rattle.admission.specs.Computed.{issuer_refusal, test_number, placed};

use crate::issuers::below_id;
use certificate::operations::whole_outline;
use entries::{as_number, record_from};
use octets::kinds::{AUTHORITY, ROOT, TICKET};
use octets::refusals::Refusal;
use octets::verdicts::GOOD;
use records::Record;
use store::search::{empty_slot, find_id};
use store::sizes::STORE_LENGTH;
use store::slots::store_record;
use validity::valid;

// Whether the operation takes a certificate of this kind: install a root, admit a ticket or an authority.
fn takes(anchor: bool, kind: u8) -> bool
    ensures { result ≡ wanted anchor kind }
{
    if anchor {
        return kind == ROOT;
    }
    (kind == TICKET) | (kind == AUTHORITY)
}

// The tests of a record's issuer, which an anchor has not.
#[tactic(auto, using(crate::proofs::Tests::issuer_tests))]
fn test_issuer(store: &[u8; STORE_LENGTH], r: &Record, anchor: bool) -> Result<(), Refusal>
    ensures { answer_of result ≡ issuer_refusal anchor store.now r.now }
{
    if anchor {
        return Ok(());
    }
    below_id(store, as_number(r.issuer), &r.scope)
}

// The tests of a record that is to go into the store.
fn test(store: &[u8; STORE_LENGTH], r: &Record, verdict: u8, anchor: bool) -> Result<(), Refusal>
    ensures { answer_of result ≡ test_number anchor store.now r.now verdict }
{
    if find_id(store, as_number(r.id)).is_some() {
        return Err(Refusal::AlreadyHeld);
    }
    test_issuer(store, r, anchor)?;
    if verdict != GOOD {
        return Err(Refusal::BadSignature);
    }
    Ok(())
}

// A record goes into the lowest empty slot if it passes its tests.
#[tactic(auto, using(crate::proofs::Entered::placing_tests))]
fn place(
    store: &mut [u8; STORE_LENGTH],
    r: Record,
    verdict: u8,
    anchor: bool,
) -> Result<(), Refusal>
    requires { InRange r }
    ensures { ◌≡◌ {A = ℕ × List ℕ} (answer_of result, store.new) (placed anchor store.old r verdict) }
{
    test(store, &r, verdict, anchor)?;
    let slot = empty_slot(store).ok_or(Refusal::Full)?;
    store_record(store, slot, r);
    Ok(())
}

// Both operations.
// Kept: a flag says which, since they differ in two tests of one order; two closures for these would be longer.
fn enter(store: &mut [u8], octets: &[u8], verdict: u8, anchor: bool) -> Result<(), Refusal>
    ensures { ◌≡◌ {A = ℕ × List ℕ} (answer_of result, store.new) (entered anchor store.old octets.now verdict) }
{
    let Some(store) = store.as_mut_array::<STORE_LENGTH>() else {
        return Err(Refusal::BadCall);
    };
    if !valid(store) {
        return Err(Refusal::BadStore);
    }
    let outline = whole_outline(octets)?;
    if !takes(anchor, outline.head.kind) {
        return Err(Refusal::WrongKind);
    }
    let r = record_from(octets, outline);
    place(store, r, verdict, anchor)
}

// Installs an anchor: a root certificate.
pub fn install(store: &mut [u8], certificate: &[u8], verdict: u8) -> Result<(), Refusal>
    ensures { ◌≡◌ {A = ℕ × List ℕ} (answer_of result, store.new) (installed store.old certificate.now verdict) }
{
    enter(store, certificate, verdict, true)
}

// Admits a certificate below an issuer that is stored.
pub fn admit(store: &mut [u8], certificate: &[u8], verdict: u8) -> Result<(), Refusal>
    ensures { ◌≡◌ {A = ℕ × List ℕ} (answer_of result, store.new) (admitted store.old certificate.now verdict) }
{
    enter(store, certificate, verdict, false)
}
