ghost use Rattle.std.specs.Prelude.{◌≡◌, ◌++◌, ℕ, ◌+◌, ◌*◌, ◌≤◌, ◌<◌, length, get_or};
ghost use Rattle.octets.specs.Outcomes.{number_of};
ghost use Rattle.text.specs.Text.{Written};
ghost use Rattle.records.specs.Layout.{ID};
ghost use Rattle.records.specs.Records.{record_of};
ghost use Rattle.store.specs.Slots.{slot_count, slot_of};
ghost use Rattle.page_text.specs.Lines.{kind_word, name_of, line_of, lines_of, head_of, count_of, refused_of};
ghost use Rattle.page_text.specs.Sizes.{name_length, kind_length, line_length, head_length, count_length, refusal_length, page_length};

use octets::kinds::{AUTHORITY, ROOT};
use octets::refusals::Refusal;
use records::layout::NAME_ROOM;
use records::{Name, Record};
use store::sizes::STORE_LENGTH;
use store::slot::Slot;
use store::slots::record_at;
use text::decimal::write_decimal;
use text::hexadecimal::write_hex;
use text::pieces::{write_octet, write_text};

// Kept: a number is compared, no enum, since the octets of a store that is not valid may hold any.
#[tactic(auto, using(crate::proofs::Printed::kind_root, crate::proofs::Printed::kind_authority, crate::proofs::Printed::kind_ticket))]
fn write_kind(text: &mut [u8], at: usize, kind: u8) -> usize
    requires { at + kind_length ≤ length text.old }
    ensures { Written text.old at (kind_word kind) result text.new }
{
    if kind == ROOT {
        return write_text(text, at, b"root");
    }
    if kind == AUTHORITY {
        return write_text(text, at, b"authority");
    }
    write_text(text, at, b"ticket")
}

// A length above the room of a name, which no valid store has, ends with it.
#[tactic(auto, using(crate::proofs::Printed::name_none, crate::proofs::Printed::name_some, crate::proofs::Printed::name_all))]
fn write_name(text: &mut [u8], at: usize, name: Name) -> usize
    requires { at + name_length ≤ length text.old }
    ensures { Written text.old at (name_of name) result text.new }
{
    let length = name.length;
    let octets = name.octets;
    if length == 0 {
        return write_octet(text, at, b'-');
    }
    if NAME_ROOM < length {
        return write_hex(text, at, &octets);
    }
    write_hex(text, at, &octets[..length])
}

// The line of a certificate.
#[tactic(auto, using(crate::proofs::Printed::decimal_two, crate::proofs::Printed::kind_fits, crate::proofs::Printed::name_fits, text::proofs::Hex::hex_long))]
fn write_certificate(text: &mut [u8], at: usize, slot: u32, r: Record) -> usize
    requires { (slot < slot_count) × (at + line_length ≤ length text.old) }
    ensures { Written text.old at (line_of slot r) result text.new }
{
    let id = r.id;
    let scope = r.scope;
    let name = r.name;
    let a = write_decimal(text, at, slot);
    let b = write_octet(text, a, b' ');
    let c = write_hex(text, b, &id);
    let d = write_octet(text, c, b' ');
    let e = write_kind(text, d, scope.kind);
    let f = write_octet(text, e, b' ');
    let g = write_name(text, f, name);
    write_octet(text, g, b'\n')
}

// The line of the certificate in a slot.
fn write_line(text: &mut [u8], at: usize, store: &[u8; STORE_LENGTH], slot: u8) -> usize
    requires { (slot < slot_count) × (at + line_length ≤ length text.old) }
    ensures { Written text.old at (line_of slot (record_of (slot_of store.now slot))) result text.new }
{
    let record = record_at(store, Slot::at(usize::from(slot)));
    write_certificate(text, at, u32::from(slot), record)
}

// The lines of the certificates in these slots.
fn write_lines(text: &mut [u8], at: usize, store: &[u8; STORE_LENGTH], slots: &[u8]) -> usize
    requires { (at + line_length * length slots.now ≤ length text.old) × ((i : ℕ) → i < length slots.now → get_or slots.now i 0 < slot_count) }
    ensures { Written text.old at (lines_of store.now slots.now) result text.new }
{
    let mut end = at;
    for slot in slots {
        end = write_line(text, end, store, *slot);
    }
    end
}

#[tactic(auto, using(text::proofs::Hex::hex_long, text::proofs::Decimals::decimal_ten))]
fn write_head(text: &mut [u8], id: &[u8], second: u32) -> usize
    requires { (length id.now ≡ ID.count) × (head_length ≤ length text.old) }
    ensures { Written text.old 0 (head_of id.now second) result text.new }
{
    let a = write_text(text, 0, b"withdraw ");
    let b = write_hex(text, a, id);
    let c = write_text(text, b, b" at ");
    let d = write_decimal(text, c, second);
    write_octet(text, d, b'\n')
}

#[tactic(auto, using(text::proofs::Decimals::decimal_ten))]
fn write_count(text: &mut [u8], at: usize, n: u32) -> usize
    requires { at + count_length ≤ length text.old }
    ensures { Written text.old at (count_of n) result text.new }
{
    let a = write_decimal(text, at, n);
    let b = write_text(text, a, b" certificates");
    write_octet(text, b, b'\n')
}

// The text of a refusal.
#[tactic(auto, using(text::proofs::Decimals::decimal_ten))]
pub fn write_refusal(text: &mut [u8], refusal: Refusal) -> usize
    requires { refusal_length ≤ length text.old }
    ensures { Written text.old 0 (refused_of (number_of refusal)) result text.new }
{
    let a = write_text(text, 0, b"refused ");
    let b = write_decimal(text, a, u32::from(refusal.number()));
    write_octet(text, b, b'\n')
}

// The text of a list: the first line, a line for each of these slots, and the count.
pub fn write_list(
    text: &mut [u8],
    id: &[u8],
    second: u32,
    store: &[u8; STORE_LENGTH],
    slots: &[u8],
) -> usize
    requires { (length id.now ≡ ID.count) × (length slots.now ≤ slot_count) × (page_length ≤ length text.old) × ((i : ℕ) → i < length slots.now → get_or slots.now i 0 < slot_count) }
    ensures { Written text.old 0 (head_of id.now second ++ lines_of store.now slots.now ++ count_of (length slots.now)) result text.new }
{
    let a = write_head(text, id, second);
    let b = write_lines(text, a, store, slots);
    write_count(text, b, slots.len() as u32)
}
