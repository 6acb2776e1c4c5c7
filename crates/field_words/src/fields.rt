ghost use Rattle.std.specs.Prelude.{◌≡◌, ◌+◌, ◌*◌, ◌≤◌, ◌<◌, length};
ghost use Rattle.field_words.specs.Fields.{fields_length, head_words, key_words, assurance_words, period_words, area_words, edge_words, signature_words, with_rectangles, with_permissions, with_list, with_attributes, with_restrictions, with_fields};

use crate::words::write_words;
use attributes::permissions::{Permission, Permissions};
use attributes::points::Point;
use attributes::vector::Attributes;
use certificate::certificates::Certificate;
use certificate::heads::Head;
use certificate::signatures::Signature;
use geo::Rectangle;
use octets::coordinates::pattern;
use octets::vectors::{Part, nowhere};
use restrictions::periods::Period;
use restrictions::rectangles::no_rectangles;
use restrictions::vector::Restrictions;

// 90 words of four octets.
pub const FIELDS_LENGTH: usize = 360;

// Words 0 to 5.
fn head_words(h: Head) -> [u64; 6]
    ensures { result ≡ head_words h }
{
    [
        u64::from(h.signer.form),
        h.signer.digest.start as u64,
        h.signer.digest.length as u64,
        u64::from(h.kind),
        h.name.start as u64,
        h.name.length as u64,
    ]
}

// The three words of a key.
fn key_words(p: Point) -> [u64; 3]
    ensures { result ≡ key_words p }
{
    [
        u64::from(p.form),
        p.octets.start as u64,
        p.octets.length as u64,
    ]
}

// Words 12 and 13.
fn assurance_words(a: Option<u8>) -> [u64; 2]
    ensures { result ≡ assurance_words a }
{
    [u64::from(a.is_some()), u64::from(a.unwrap_or(0))]
}

// Words 14 to 17.
fn period_words(period: Option<Period>) -> [u64; 4]
    ensures { result ≡ period_words period }
{
    match period {
        Some(p) => [u64::from(p.form), u64::from(p.start), p.end >> 32, p.end],
        None => [0; 4],
    }
}

// Words 18 and 19.
// Kept: the flag is the first word itself.
fn area_words(given: bool, count: usize) -> [u64; 2]
    ensures { result ≡ area_words given count }
{
    [u64::from(given), count as u64]
}

// The four words of a rectangle.
fn edge_words(q: Rectangle) -> [u64; 4]
    ensures { result ≡ edge_words q }
{
    [
        u64::from(pattern(q.north)),
        u64::from(pattern(q.west)),
        u64::from(pattern(q.south)),
        u64::from(pattern(q.east)),
    ]
}

// Words 85 to 89.
fn signature_words(signed: Part, signature: Signature) -> [u64; 5]
    ensures { result ≡ signature_words signed signature }
{
    [
        signed.start as u64,
        signed.length as u64,
        signature.octets.start as u64,
        signature.octets.length as u64,
        u64::from(signature.form),
    ]
}

// The four rectangles become sixteen words, from the word number `at` on.
#[tactic(auto, using(crate::proofs::Rectangles::rectangles_none, crate::proofs::Rectangles::rectangles_more))]
pub fn write_rectangles(buffer: &mut [u8], at: usize, rectangles: [Rectangle; 4])
    requires { (at < 900) × (4 * at + 64 ≤ length buffer.old) }
    ensures { buffer.new ≡ with_rectangles at rectangles buffer.old }
{
    for (i, rectangle) in rectangles.iter().enumerate() {
        write_words(buffer, at + 4 * i, &edge_words(*rectangle));
    }
}

// The permissions become words 37 to 84.
fn write_permissions(buffer: &mut [u8], values: [Permission; 16])
    requires { fields_length ≤ length buffer.old }
    ensures { buffer.new ≡ with_permissions values buffer.old }
{
    let aids = values.map(|permission| u64::from(permission.aid));
    write_words(buffer, 37, &aids);
    let starts = values.map(|permission| permission.ssp.start as u64);
    write_words(buffer, 53, &starts);
    let lengths = values.map(|permission| permission.ssp.length as u64);
    write_words(buffer, 69, &lengths);
}

// A list of permissions becomes words 36 to 84, which are zero where none is given.
#[tactic(auto, unfolding(crate::specs::Fields::with_list))]
fn write_list(buffer: &mut [u8], list: Option<Permissions>)
    requires { fields_length ≤ length buffer.old }
    ensures { buffer.new ≡ with_list list buffer.old }
{
    let permissions = list.unwrap_or(Permissions {
        count: 0,
        values: [Permission {
            aid: 0,
            ssp: nowhere(),
        }; 16],
    });
    write_words(buffer, 36, &[permissions.count as u64]);
    write_permissions(buffer, permissions.values);
}

// The attributes become words 6 to 13, and 36 to 84.
#[tactic(auto, unfolding(crate::specs::Fields::with_attributes))]
fn write_attributes(buffer: &mut [u8], a: Attributes)
    requires { fields_length ≤ length buffer.old }
    ensures { buffer.new ≡ with_attributes a buffer.old }
{
    write_words(buffer, 6, &key_words(a.key));
    write_words(buffer, 9, &key_words(a.encryption));
    write_words(buffer, 12, &assurance_words(a.assurance));
    write_list(buffer, a.permissions);
}

// The restrictions become words 14 to 35.
#[tactic(auto, unfolding(crate::specs::Fields::with_restrictions))]
fn write_restrictions(buffer: &mut [u8], r: Restrictions)
    requires { fields_length ≤ length buffer.old }
    ensures { buffer.new ≡ with_restrictions r buffer.old }
{
    write_words(buffer, 14, &period_words(r.period));
    let region = r.area.unwrap_or(no_rectangles());
    write_words(buffer, 18, &area_words(r.area.is_some(), region.count));
    write_rectangles(buffer, 20, region.rectangles);
}

// The fields of a certificate become the first octets of a buffer.
#[tactic(auto, unfolding(crate::specs::Fields::with_fields))]
pub fn write_fields(buffer: &mut [u8], c: Certificate)
    requires { fields_length ≤ length buffer.old }
    ensures { buffer.new ≡ with_fields c buffer.old }
{
    write_words(buffer, 0, &head_words(c.head));
    write_attributes(buffer, c.attributes);
    write_restrictions(buffer, c.restrictions);
    write_words(buffer, 85, &signature_words(c.signed, c.signature));
}
