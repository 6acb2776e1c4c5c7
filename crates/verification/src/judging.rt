ghost use Rattle.std.specs.Prelude.{◌≡◌};
ghost use Rattle.chain.specs.Outcomes.{outcome_of};
ghost use Rattle.verification.specs.Computed.{opened, judged, PartsIn};

use geo::Position;
use message::messages::{MessageParts, read_message};
use message::signers::SignerParts;
use octets::refusals::Refusal;
use signing::places::in_range;
use signing::signers::{Identity, carried_signer, named_signer};
use signing::times::{LONGEST_AGE, in_time};
use store::sizes::STORE_LENGTH;
use validity::valid;

// When and where a message is checked: the time in microseconds, the caller's own position, the allowed age.
#[derive(Clone, Copy)]
pub struct Situation {
    pub time: u64,
    pub position: Position,
    pub age: u64,
}

// The tests that prepare and decide share, up to the signer. Both call it, and then `judged`, so that its frame is gone before the walk.
#[tactic(auto, using(octets::proofs::Outcomes::reading, crate::proofs::Opened::opened_tests))]
pub fn opened(
    store: &[u8; STORE_LENGTH],
    octets: &[u8],
    x: &Situation,
) -> Result<MessageParts, Refusal>
    ensures { outcome_of result ≡ opened store.now octets.now x.now }
{
    if !in_range(x.position) {
        return Err(Refusal::BadCall);
    }
    if LONGEST_AGE < x.age {
        return Err(Refusal::BadCall);
    }
    if !valid(store) {
        return Err(Refusal::BadStore);
    }
    let (message, _) = read_message(octets)?;
    if !in_time(&message.fields, x.time, x.age) {
        return Err(Refusal::OutOfDate);
    }
    Ok(message)
}

// The signer of a message that was opened.
#[tactic(auto, unfolding(crate::specs::Computed::judged))]
pub fn judged(
    store: &[u8; STORE_LENGTH],
    octets: &[u8],
    m: &MessageParts,
    own: Position,
) -> Result<Identity, Refusal>
    requires { PartsIn octets.now m.now }
    ensures { outcome_of result ≡ judged store.now octets.now m.now own }
{
    match m.signer {
        SignerParts::Named(digest) => named_signer(store, octets, digest, &m.fields, own),
        SignerParts::Carried {
            signed,
            signature: _,
        } => carried_signer(store, octets, signed.start, &m.fields, own),
    }
}
