ghost use Rattle.std.specs.Prelude.{◌≡◌, not, ◌&&◌, eqb, unwrap_or, Ok, IfSome};
ghost use Rattle.octets.specs.Verdicts.{GOOD};
ghost use Rattle.verification.specs.Order.{question, unasked, preparation, prepared_answer, CertificateAsked, decision, decided_answer};
ghost use Rattle.verification.specs.Computed.{parts_question, questions_from, carries_in, verified_from};

use crate::judging::{Situation, judged, opened};
use message::messages::MessageParts;
use message::signers::SignerParts;
use octets::refusals::Refusal;
use octets::vectors::Part;
use octets::verdicts::GOOD;
use signing::fields::{generated, its_aid};
use signing::signers::{Identity, PublicKey, public_key};
use store::fields::key_at;
use store::search::find_id;
use store::sizes::STORE_LENGTH;

// What the chip is asked: the signed range, the key's point type and octets, and the whole signature structure. Ranges are parts of the message.
// Kept: the form's number, which C is told.
#[derive(Clone, Copy)]
pub struct Question {
    pub signed: Part,
    pub form: u8,
    pub key: [u8; 32],
    pub signature: Part,
}

// The questions for the message and, if it carries one, for the certificate.
#[derive(Clone, Copy)]
pub struct Prepared {
    pub message: Question,
    pub certificate: Option<Question>,
}

// The payload as a part of the message, the signer's id, its_aid and the generation time.
#[derive(Clone, Copy)]
pub struct Decision {
    pub payload: Part,
    pub signer: [u8; 8],
    pub permission: u32,
    pub generation: u64,
}

fn question_of(signed: Part, key: PublicKey, signature: Part) -> Question
    ensures { result ≡ question signed key signature }
{
    let octets = key.octets;
    Question {
        signed,
        form: key.form,
        key: octets,
        signature,
    }
}

// The question for the certificate that a message carries, by the key of its issuer.
fn certificate_question(
    store: &[u8; STORE_LENGTH],
    signer: SignerParts,
    issuer: u64,
) -> Option<Question>
    ensures { (unwrap_or result unasked ≡ parts_question store.now issuer signer) × IfSome result (λ a. ¬ (a.form ≡ 0)) }
{
    let SignerParts::Carried { signed, signature } = signer else {
        return None;
    };
    let slot = find_id(store, issuer)?;
    let key = public_key(key_at(store, slot));
    Some(question_of(signed, key, signature))
}

// The questions of a message with these parts, whose signer passes its tests.
#[tactic(auto, unfolding(crate::specs::Computed::questions_from))]
fn questions_for(store: &[u8; STORE_LENGTH], m: &MessageParts, signer: &Identity) -> Prepared
    ensures { (prepared_answer (Ok result) ≡ questions_from store.now m.now signer.now) × CertificateAsked (Ok result) }
{
    Prepared {
        message: question_of(m.signed, signer.key, m.signature.octets),
        certificate: certificate_question(store, m.signer, signer.issuer),
    }
}

// Gives the signature questions of a message. It refuses as `decide` with good verdicts.
pub fn prepare(store: &[u8], message: &[u8], x: &Situation) -> Result<Prepared, Refusal>
    ensures { (prepared_answer result ≡ preparation store.now message.now x.now) × CertificateAsked result }
{
    let Ok(store) = <&[u8; STORE_LENGTH]>::try_from(store) else {
        return Err(Refusal::BadCall);
    };
    let m = opened(store, message, x)?;
    let signer = judged(store, message, &m, x.position)?;
    Ok(questions_for(store, &m, &signer))
}

// Whether the verdict on the certificate that a message carries is lacking.
fn uncertified(signer: SignerParts, certified: u8) -> bool
    ensures { result ≡ (carries_in signer && not (eqb certified GOOD)) }
{
    match signer {
        SignerParts::Named(_) => false,
        SignerParts::Carried { .. } => certified != GOOD,
    }
}

// The decision on a message with these parts, whose signer passes its tests, by the chip's verdicts.
#[tactic(auto, using(octets::proofs::Outcomes::reading), unfolding(crate::specs::Computed::verified_from))]
fn decision_for(
    m: &MessageParts,
    signer: &Identity,
    verdict: u8,
    certified: u8,
) -> Result<Decision, Refusal>
    ensures { decided_answer result ≡ verified_from m.now signer.now verdict certified }
{
    if uncertified(m.signer, certified) {
        return Err(Refusal::BadSignature);
    }
    if verdict != GOOD {
        return Err(Refusal::BadSignature);
    }
    let id = signer.id;
    Ok(Decision {
        payload: m.payload,
        signer: id,
        permission: its_aid(&m.fields),
        generation: generated(&m.fields),
    })
}

// Decides a message. A verdict is the chip's octet, 1 for good; the certificate's is ignored where the message carries none.
pub fn decide(
    store: &[u8],
    message: &[u8],
    x: &Situation,
    verdict: u8,
    certified: u8,
) -> Result<Decision, Refusal>
    ensures { decided_answer result ≡ decision store.now message.now x.now verdict certified }
{
    let Ok(store) = <&[u8; STORE_LENGTH]>::try_from(store) else {
        return Err(Refusal::BadCall);
    };
    let m = opened(store, message, x)?;
    let signer = judged(store, message, &m, x.position)?;
    decision_for(&m, &signer, verdict, certified)
}
