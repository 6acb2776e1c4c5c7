// What the store keeps of a certificate.
#![tactic(auto)]

ghost use Rattle.std.specs.Prelude.{◌≡◌, [], ◌+◌, ◌≤◌, length};
ghost use Rattle.octets.specs.Items.{padded};
ghost use Rattle.octets.specs.Reading.{value_or};
ghost use Rattle.attributes.specs.Outlines.{items_in, Readable};
ghost use Rattle.certificate.specs.Outlines.{Outlined, certificate_from};
ghost use Rattle.bitfields.specs.Field.{number};
ghost use Rattle.entries.specs.Stored.{part_of, id_from, scope_from, record_from};
ghost use Rattle.entries.specs.Outlines.{aids_placed};

use attributes::permissions::permission_at;
use certificate::certificates::restrictions_of;
use certificate::outlines::Outline;
use octets::buffers::write_front;
use octets::kinds::TICKET;
use octets::vectors::Part;
use records::{Key, Name, Record};
use restrictions::rectangles::no_rectangles;
use scope::{Permissions, Scope};
use sha256::short_digest_with_zero_at;
use store::states::HELD;

// The ITS-AIDs of the permissions from a position to the end. They were checked, so none is
// refused and each has room.
fn aids_in(s: &[u8], start: usize, ssp: bool) -> Permissions
    requires { Readable ssp s.now start }
    ensures { result ≡ aids_placed (value_or [] (items_in ssp s.now start)) }
{
    let mut values = [0u32; 16];
    let mut at = start;
    for count in 0..16 {
        if s.len() <= at {
            return Permissions { count, values };
        }
        let (permission, next) = permission_at(s, at, ssp).unwrap();
        values[count] = permission.aid;
        at = next;
    }
    Permissions { count: 16, values }
}

// What a certificate allows. One that gives no region allows each place.
#[tactic(auto, unfolding(crate::specs::Stored::scope_from, attributes::specs::Outlines::permissions_from))]
fn scope_from(s: &[u8], o: Outline) -> Scope
    requires { Outlined s.now o }
    ensures { result ≡ scope_from (certificate_from s.now o) }
{
    let restrictions = restrictions_of(s, o.restrictions);
    let period = restrictions.period.unwrap();
    let list = o.attributes.list.unwrap();
    let permissions = aids_in(&s[..list.end], list.start, o.head.kind == TICKET);
    Scope {
        kind: o.head.kind,
        start: period.start,
        end: period.end,
        region: restrictions.area.unwrap_or(no_rectangles()),
        permissions,
    }
}

// The octets of a part, with zeros after them: an issuer's id, of which a root has none, a name or a key.
#[tactic(auto, using(crate::proofs::Fronts::front_padded))]
fn octets_of<const N: usize>(s: &[u8], part: Part) -> [u8; N]
    requires { (part.start + part.length ≤ length s.now) × (part.length ≤ N) }
    ensures { result ≡ padded N 0 (part_of s.now part) }
{
    let start = part.start;
    let end = start + part.length;
    let mut octets = [0; N];
    write_front(&mut octets, &s[start..end]);
    octets
}

// The id of a certificate: hashed from its own octets, with the signature's point type taken as 0.
#[tactic(auto, unfolding(crate::specs::Stored::id_from))]
fn id_from(s: &[u8], o: Outline) -> [u8; 8]
    requires { o.signed.start + o.signed.length + 66 ≤ length s.now }
    ensures { result ≡ id_from s.now (certificate_from s.now o) }
{
    let start = o.signed.start;
    let length = o.signed.length;
    let end = start + length + 66;
    short_digest_with_zero_at(&s[start..end], length + 1)
}

// The record of a certificate whose outline was read in s.
#[tactic(auto, unfolding(crate::specs::Stored::record_from))]
pub fn record_from(s: &[u8], o: Outline) -> Record
    requires { Outlined s.now o }
    ensures { result ≡ record_from s.now (certificate_from s.now o) }
{
    let id = id_from(s, o);
    let issuer = octets_of(s, o.head.signer.digest);
    let scope = scope_from(s, o);
    let name = octets_of(s, o.head.name);
    let key = octets_of(s, o.attributes.key.octets);
    Record {
        id,
        issuer,
        state: HELD,
        scope,
        name: Name {
            length: o.head.name.length,
            octets: name,
        },
        key: Key {
            parity: o.attributes.key.form - 2,
            octets: key,
        },
    }
}

// An id as one number.
pub fn as_number(id: [u8; 8]) -> u64
    ensures { result ≡ number id }
{
    u64::from_be_bytes(id)
}
