#![tactic(auto, using(octets::proofs::Outcomes::reading, crate::proofs::Inside::payload_inside), unfolding(crate::specs::Messages::whole_message))]

ghost use Rattle.std.specs.Prelude.{◌≡◌};
ghost use Rattle.octets.specs.Reading.{kept};
ghost use Rattle.octets.specs.Outcomes.{read_of};
ghost use Rattle.message.specs.Messages.{whole_message};
ghost use Rattle.message.specs.Parts.{message_parts};

use crate::bodies::{payload_at, trailer_at};
use crate::signers::SignerParts;
use crate::vectors::headers_at;
use certificate::signatures::Signature;
use headers::fields::Fields;
use octets::elements::exactly_at;
use octets::reading::Read;
use octets::refusals::Refusal;
use octets::vectors::Part;

// What a message says; of a certificate that it carries, where its parts stand. Parts are octets of what the caller passed.
// Kept: generation time and its_aid stay options, though a message has them, since theorems (`entitled_first`) speak of `Fields`.
#[derive(Clone, Copy)]
pub struct MessageParts {
    pub signer: SignerParts,
    pub fields: Fields,
    pub payload: Part,
    pub signed: Part,
    pub signature: Signature,
}

// The message that is the whole input, of at most 2,048 octets.
pub fn read_message(s: &[u8]) -> Read<MessageParts>
    ensures { read_of result ≡ kept message_parts (whole_message s.now) }
{
    if 2048 < s.len() {
        return Err(Refusal::TooLong);
    }
    let a = exactly_at(s, 0, 2)?;
    let (headers, b) = headers_at(s, a)?;
    let (start, c) = payload_at(s, b, headers.complete())?;
    // One that was lacking was found before the payload.
    let signer = headers.signer.ok_or(Refusal::Malformed)?;
    let (signature, next) = trailer_at(s, c)?;
    if next < s.len() {
        return Err(Refusal::Malformed);
    }
    let message = MessageParts {
        signer,
        fields: headers.fields,
        payload: Part {
            start,
            length: c - start,
        },
        signed: Part {
            start: 0,
            length: signature.octets.start,
        },
        signature,
    };
    Ok((message, next))
}
