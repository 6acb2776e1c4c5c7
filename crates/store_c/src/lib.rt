// The store's check and a record's way there and back, for the benchmark (rust/bench); no part of the library's interface.
#![tactic(auto)]

ghost use Rattle.std.specs.Prelude.{◌≡◌, List, ℕ};
ghost use Rattle.octets.specs.Outcomes.{answer_of};
ghost use Rattle.store_c.specs.Calls.{valid_call, rewrite_call};

use octets::refusals::{Refusal, answer};
use records::layout::SLOT_LENGTH;
use records::{decode, encode};
use store::sizes::STORE_LENGTH;
use validity::valid;

#[tactic(auto, unfolding(crate::specs::Calls::valid_call))]
fn test(store: &[u8]) -> Result<(), Refusal>
    ensures { answer_of result ≡ valid_call store.now }
{
    if store.len() != STORE_LENGTH {
        return Err(Refusal::BadCall);
    }
    if !valid(store) {
        return Err(Refusal::BadStore);
    }
    Ok(())
}

#[tactic(auto, using(records::proofs::Decoded::decoded_in_range), unfolding(crate::specs::Calls::rewrite_call))]
fn rewrite(slot: &[u8], image: &mut [u8]) -> Result<(), Refusal>
    ensures { ◌≡◌ {A = ℕ × List ℕ} (answer_of result, image.new) (rewrite_call slot.now image.old) }
{
    let Some(slot) = slot.as_array::<SLOT_LENGTH>() else {
        return Err(Refusal::BadCall);
    };
    let Some(image) = image.as_mut_array::<SLOT_LENGTH>() else {
        return Err(Refusal::BadCall);
    };
    *image = encode(decode(slot));
    Ok(())
}

#[unsafe(no_mangle)]
pub extern "C" fn store_valid(store: &[u8]) -> u8
    ensures { result ≡ valid_call store.now }
{
    answer(test(store))
}

#[unsafe(no_mangle)]
pub extern "C" fn store_rewrite(slot: &[u8], image: &mut [u8]) -> u8
    ensures { ◌≡◌ {A = ℕ × List ℕ} (result, image.new) (rewrite_call slot.now image.old) }
{
    answer(rewrite(slot, image))
}
