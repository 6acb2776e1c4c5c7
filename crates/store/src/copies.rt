ghost use Rattle.std.specs.Prelude.{◌≡◌};
ghost use Rattle.records.specs.Ranges.{InRange};
ghost use Rattle.records.specs.Records.{image_of};
ghost use Rattle.store.specs.Slots.{slot_of};
ghost use Rattle.store.specs.Copies.{same_octets};

use crate::fields::octets_at;
use crate::sizes::STORE_LENGTH;
use crate::slot::Slot;
use records::layout::SLOT_LENGTH;
use records::{Record, encode};

// Whether the octets of a slot are this image.
fn is_image(store: &[u8; STORE_LENGTH], slot: Slot, image: &[u8; SLOT_LENGTH]) -> bool
    ensures { result ≡ same_octets (slot_of store.now slot) image.now }
{
    octets_at(store, slot) == image
}

// Whether a slot holds this record, in every field.
pub fn holds_record(store: &[u8; STORE_LENGTH], slot: Slot, r: Record) -> bool
    requires { InRange r }
    ensures { result ≡ same_octets (slot_of store.now slot) (image_of r) }
{
    is_image(store, slot, &encode(r))
}
