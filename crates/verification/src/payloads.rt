ghost use Rattle.std.specs.Prelude.{◌≡◌};
ghost use Rattle.verification.specs.Payloads.{payload_of};

use crate::operations::Decision;

// The payload of a message that was decided, as a part of it; the empty part where its part passes the message's end.
#[tactic(auto, using(octets::proofs::Outcomes::reading), unfolding(crate::specs::Payloads::payload_of))]
pub fn payload<'a>(message: &'a [u8], decision: &Decision) -> &'a [u8]
    ensures { result.now ≡ payload_of message.now decision.now.payload }
{
    let start = decision.payload.start;
    let length = decision.payload.length;
    if start <= message.len() && length <= message.len() - start {
        return &message[start..start + length];
    }
    &message[..0]
}
