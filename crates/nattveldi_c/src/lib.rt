// The C interface (include/nattveldi.h): numbers and octet slices. A buffer that is too short is a bad call.
#![tactic(auto)]

ghost use Rattle.std.specs.Prelude.{◌≡◌, [], List, ℕ, ◌≤◌, ℤ};
ghost use Rattle.admission.specs.Order.{installed, admitted};
ghost use Rattle.verification.specs.Order.{situation};
ghost use Rattle.store.specs.Slots.{slot_count};
ghost use Rattle.slot_lists.specs.Listings.{listing};
ghost use Rattle.withdrawal.specs.Order.{withdrawal};
ghost use Rattle.page_text.specs.Page.{page_call};
ghost use Rattle.nattveldi_c.specs.Calls.{read_call, id_call, prepare_call, decide_call, count_of, list_call, standing_call, stored_call};

use answer_words::{
    DECISION_LENGTH, QUESTIONS_LENGTH, STORED_LENGTH, write_decision, write_questions, write_stored,
};
use field_words::{FIELDS_LENGTH, write_fields};
use geo::Position;
use nattveldi::{Listed, Refusal, Situation};
use octets::buffers::write_front;
use octets::refusals::{ACCEPTED, answer};

// What a list answers in C: how many slots it names, or minus the number of the refusal.
fn counted(listed: Listed) -> i32
    requires { (listing listed [] []).n ≤ slot_count }
    ensures { result ≡ count_of (listing listed [] []).number (listing listed [] []).n }
{
    match listed {
        Ok(n) => n as i32,
        Err(refusal) => -i32::from(refusal.number()),
    }
}

#[tactic(auto, using(octets::proofs::Outcomes::reading), unfolding(crate::specs::Calls::read_call))]
#[unsafe(no_mangle)]
pub extern "C" fn nattveldi_read(certificate: &[u8], fields: &mut [u8]) -> u8
    ensures { ◌≡◌ {A = ℕ × List ℕ} (result, fields.new) (read_call certificate.now fields.old) }
{
    if fields.len() < FIELDS_LENGTH {
        return Refusal::BadCall.number();
    }
    match nattveldi::read(certificate) {
        Err(refusal) => refusal.number(),
        Ok(found) => {
            write_fields(fields, found);
            ACCEPTED
        }
    }
}

#[tactic(auto, using(octets::proofs::Outcomes::reading), unfolding(crate::specs::Calls::id_call))]
#[unsafe(no_mangle)]
pub extern "C" fn nattveldi_id(certificate: &[u8], id: &mut [u8]) -> u8
    ensures { ◌≡◌ {A = ℕ × List ℕ} (result, id.new) (id_call certificate.now id.old) }
{
    if id.len() < 8 {
        return Refusal::BadCall.number();
    }
    match nattveldi::id(certificate) {
        Err(refusal) => refusal.number(),
        Ok(octets) => {
            write_front(id, &octets);
            ACCEPTED
        }
    }
}

#[unsafe(no_mangle)]
pub extern "C" fn nattveldi_install(store: &mut [u8], certificate: &[u8], verdict: u8) -> u8
    ensures { ◌≡◌ {A = ℕ × List ℕ} (result, store.new) (installed store.old certificate.now verdict) }
{
    answer(nattveldi::install(store, certificate, verdict))
}

#[unsafe(no_mangle)]
pub extern "C" fn nattveldi_admit(store: &mut [u8], certificate: &[u8], verdict: u8) -> u8
    ensures { ◌≡◌ {A = ℕ × List ℕ} (result, store.new) (admitted store.old certificate.now verdict) }
{
    answer(nattveldi::admit(store, certificate, verdict))
}

#[tactic(auto, using(octets::proofs::Outcomes::reading), unfolding(crate::specs::Calls::prepare_call))]
#[unsafe(no_mangle)]
pub extern "C" fn nattveldi_prepare(
    store: &[u8],
    message: &[u8],
    time: u64,
    latitude: i32,
    longitude: i32,
    age: u64,
    questions: &mut [u8],
) -> u8
    ensures { ◌≡◌ {A = ℕ × List ℕ × List ℕ} (result, questions.new, store.now) (prepare_call store.now message.now (situation time latitude longitude age) questions.old) }
{
    if questions.len() < QUESTIONS_LENGTH {
        return Refusal::BadCall.number();
    }
    let position = Position {
        latitude,
        longitude,
    };
    let situation = Situation {
        time,
        position,
        age,
    };
    match nattveldi::prepare(store, message, &situation) {
        Err(refusal) => refusal.number(),
        Ok(prepared) => {
            write_questions(questions, prepared);
            ACCEPTED
        }
    }
}

#[tactic(auto, using(octets::proofs::Outcomes::reading), unfolding(crate::specs::Calls::decide_call))]
#[unsafe(no_mangle)]
pub extern "C" fn nattveldi_decide(
    store: &[u8],
    message: &[u8],
    time: u64,
    latitude: i32,
    longitude: i32,
    age: u64,
    verdict: u8,
    certified: u8,
    decision: &mut [u8],
) -> u8
    ensures { ◌≡◌ {A = ℕ × List ℕ × List ℕ} (result, decision.new, store.now) (decide_call store.now message.now (situation time latitude longitude age) verdict certified decision.old) }
{
    if decision.len() < DECISION_LENGTH {
        return Refusal::BadCall.number();
    }
    let position = Position {
        latitude,
        longitude,
    };
    let situation = Situation {
        time,
        position,
        age,
    };
    match nattveldi::decide(store, message, &situation, verdict, certified) {
        Err(refusal) => refusal.number(),
        Ok(decided) => {
            write_decision(decision, decided);
            ACCEPTED
        }
    }
}

#[tactic(auto, using(octets::proofs::Outcomes::reading), unfolding(crate::specs::Calls::stored_call))]
#[unsafe(no_mangle)]
pub extern "C" fn nattveldi_stored(store: &[u8], slot: usize, stored: &mut [u8]) -> u8
    ensures { ◌≡◌ {A = ℕ × List ℕ × List ℕ} (result, stored.new, store.now) (stored_call store.now slot stored.old) }
{
    if stored.len() < STORED_LENGTH {
        return Refusal::BadCall.number();
    }
    match nattveldi::stored(store, slot) {
        Err(refusal) => refusal.number(),
        Ok(contents) => {
            write_stored(stored, contents);
            ACCEPTED
        }
    }
}

#[unsafe(no_mangle)]
pub extern "C" fn nattveldi_standing(store: &[u8], second: u32, list: &mut [u8]) -> i32
    ensures { ◌≡◌ {A = ℤ × List ℕ × List ℕ} (result, list.new, store.now) (standing_call store.now second list.old) }
{
    counted(nattveldi::standing(store, second, list))
}

#[unsafe(no_mangle)]
pub extern "C" fn nattveldi_list(store: &[u8], id: &[u8], second: u32, list: &mut [u8]) -> i32
    ensures { ◌≡◌ {A = ℤ × List ℕ × List ℕ} (result, list.new, store.now) (list_call store.now id.now second list.old) }
{
    counted(nattveldi::list(store, id, second, list))
}

#[unsafe(no_mangle)]
pub extern "C" fn nattveldi_withdraw(store: &mut [u8], id: &[u8]) -> u8
    ensures { ◌≡◌ {A = ℕ × List ℕ} (result, store.new) (withdrawal store.old id.now) }
{
    answer(nattveldi::withdraw(store, id))
}

#[unsafe(no_mangle)]
pub extern "C" fn nattveldi_page(input: &[u8], text: &mut [u8]) -> u32
    ensures { ◌≡◌ {A = ℕ × List ℕ} (result, text.new) (page_call input.now text.old) }
{
    nattveldi::page(input, text)
}
