#![tactic(auto, using(octets::proofs::Outcomes::reading, certificate::proofs::Filled::certificate_filled), unfolding(crate::specs::Signers::named_at, crate::specs::Signers::carried_at, crate::specs::Signers::signer_info_at, crate::specs::Signers::signer_at, crate::specs::Signers::unsigned))]

ghost use Rattle.std.specs.Prelude.{◌≡◌, Some};
ghost use Rattle.octets.specs.Reading.{kept};
ghost use Rattle.octets.specs.Outcomes.{read_of};
ghost use Rattle.message.specs.Signers.{named_at, carried_at, signer_info_at, signer_at};
ghost use Rattle.message.specs.Parts.{signer_parts};

use certificate::outlines::outline_at;
use headers::fields::stray;
use octets::numbers::octet_at;
use octets::reading::Read;
use octets::refusals::Refusal;
use octets::vectors::{Part, run_at};

// The forms of a signer that are read (001, clause 4.2.11): an id, or a certificate.
pub const NAMED: u8 = 1;

pub const CARRIED: u8 = 2;

// Who signed: the certificate with the id whose 8 octets are named, or the certificate that stands here, of which the signed range and
// the signature are given.
#[derive(Clone, Copy)]
pub enum SignerParts {
    Named(Part),
    Carried { signed: Part, signature: Part },
}

// The 8 octets of an id.
fn named_at(s: &[u8], at: usize) -> Read<SignerParts>
    ensures { kept Some (read_of result) ≡ kept signer_parts (named_at s.now at) }
{
    let (start, next) = run_at(s, at, 8)?;
    Ok((SignerParts::Named(Part { start, length: 8 }), next))
}

// A certificate, which ends with its signature; its container is the header vector.
fn carried_at(s: &[u8], at: usize) -> Read<SignerParts>
    ensures { kept Some (read_of result) ≡ kept signer_parts (carried_at s.now at) }
{
    let (outline, next) = outline_at(s, at)?;
    let signed = outline.signed;
    let signature = outline.signature.octets;
    Ok((SignerParts::Carried { signed, signature }, next))
}

// What stands behind the signer's type octet.
fn signer_info_at(s: &[u8], at: usize) -> Read<SignerParts>
    ensures { kept Some (read_of result) ≡ kept signer_parts (signer_info_at s.now at) }
{
    let (form, next) = octet_at(s, at)?;
    match form {
        NAMED => named_at(s, next),
        CARRIED => carried_at(s, next),
        _ => Err(Refusal::Unsupported),
    }
}

// The first header, which must be the signer; none where the vector is empty.
pub fn signer_at(s: &[u8], at: usize) -> Read<Option<SignerParts>>
    ensures { read_of result ≡ kept signer_parts (signer_at s.now at) }
{
    if s.len() <= at {
        return Ok((None, at));
    }
    let t = s[at];
    if t != 128 {
        return Err(stray(t));
    }
    let (signer, next) = signer_info_at(s, at + 1)?;
    Ok((Some(signer), next))
}
