// All that a slot holds, as octets at the front of a buffer (specs/Slots). Starts count octets, words have four.
ghost use Rattle.std.specs.Prelude.{◌≡◌, ◌≤◌, length};
ghost use Rattle.answer_words.specs.Slots.{stored_length, with_identity, with_terms, with_name_and_key, with_region, with_permissions, with_stored};

use field_words::{write_rectangles, write_words};
use geo::Region;
use octets::buffers::write_octets;
use records::layout::{ID_LENGTH, KEY_LENGTH, NAME_ROOM, PERMISSION_ROOM, RECTANGLE_ROOM};
use records::{Key, Name, Record};
use scope::{Permissions, Scope};

const ISSUER_START: usize = ID_LENGTH;

const STATE_WORD: usize = (ISSUER_START + ID_LENGTH) / 4;

const TERMS_WORD: usize = STATE_WORD + 1;

const NAME_WORD: usize = TERMS_WORD + 4;

const NAME_START: usize = 4 * NAME_WORD + 4;

const PARITY_WORD: usize = (NAME_START + NAME_ROOM) / 4;

const KEY_START: usize = 4 * PARITY_WORD + 4;

const REGION_WORD: usize = (KEY_START + KEY_LENGTH) / 4;

const RECTANGLES_WORD: usize = REGION_WORD + 1;

const PERMISSION_COUNT_WORD: usize = RECTANGLES_WORD + 4 * RECTANGLE_ROOM;

const PERMISSIONS_WORD: usize = PERMISSION_COUNT_WORD + 1;

pub const STORED_LENGTH: usize = 4 * (PERMISSIONS_WORD + PERMISSION_ROOM);

// The ids and the state.
#[tactic(auto, unfolding(crate::specs::Slots::with_identity))]
fn write_identity(buffer: &mut [u8], id: &[u8; ID_LENGTH], issuer: &[u8; ID_LENGTH], state: u8)
    requires { stored_length ≤ length buffer.old }
    ensures { buffer.new ≡ with_identity id.now issuer.now state buffer.old }
{
    write_octets(buffer, 0, id);
    write_octets(buffer, ISSUER_START, issuer);
    write_words(buffer, STATE_WORD, &[u64::from(state)]);
}

// Kind, start, and the end in two words.
#[tactic(auto, unfolding(crate::specs::Slots::with_terms))]
fn write_terms(buffer: &mut [u8], scope: Scope)
    requires { stored_length ≤ length buffer.old }
    ensures { buffer.new ≡ with_terms scope buffer.old }
{
    let words = [
        u64::from(scope.kind),
        u64::from(scope.start),
        scope.end >> 32,
        scope.end,
    ];
    write_words(buffer, TERMS_WORD, &words);
}

#[tactic(auto, unfolding(crate::specs::Slots::with_name_and_key))]
fn write_name_and_key(buffer: &mut [u8], name: Name, key: Key)
    requires { stored_length ≤ length buffer.old }
    ensures { buffer.new ≡ with_name_and_key name key buffer.old }
{
    write_words(buffer, NAME_WORD, &[name.length as u64]);
    write_octets(buffer, NAME_START, &name.octets);
    write_words(buffer, PARITY_WORD, &[u64::from(key.parity)]);
    write_octets(buffer, KEY_START, &key.octets);
}

#[tactic(auto, unfolding(crate::specs::Slots::with_region))]
fn write_region(buffer: &mut [u8], region: Region)
    requires { stored_length ≤ length buffer.old }
    ensures { buffer.new ≡ with_region region buffer.old }
{
    write_words(buffer, REGION_WORD, &[region.count as u64]);
    write_rectangles(buffer, RECTANGLES_WORD, region.rectangles);
}

fn write_permissions(buffer: &mut [u8], permissions: Permissions)
    requires { stored_length ≤ length buffer.old }
    ensures { buffer.new ≡ with_permissions permissions buffer.old }
{
    write_words(buffer, PERMISSION_COUNT_WORD, &[permissions.count as u64]);
    let words = permissions.values.map(|aid| u64::from(aid));
    write_words(buffer, PERMISSIONS_WORD, &words);
}

// All that a slot holds becomes the first octets of a buffer.
#[tactic(auto, unfolding(crate::specs::Slots::with_stored))]
pub fn write_stored(buffer: &mut [u8], r: Record)
    requires { stored_length ≤ length buffer.old }
    ensures { buffer.new ≡ with_stored r buffer.old }
{
    write_identity(buffer, &r.id, &r.issuer, r.state);
    write_terms(buffer, r.scope);
    write_name_and_key(buffer, r.name, r.key);
    write_region(buffer, r.scope.region);
    write_permissions(buffer, r.scope.permissions);
}
