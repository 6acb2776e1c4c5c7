ghost use Rattle.std.specs.Prelude.{◌≡◌, true};
ghost use Rattle.validity.specs.Valid.{valid_store};
ghost use Rattle.overview.specs.Computed.{link_at, Links};

use chain::steps::step_at;
use chain::subjects::Conditions;
use chain::walking::FOLLOWERS;
use store::sizes::{SLOTS, STORE_LENGTH};
use store::slot::Slot;
use store::slots::filled;

// Where the walk goes from a slot: not on; to its end, at a root; or to the slot of its issuer.
// Kept: the slot as one octet: with a Slot the 64 links take 1,024 octets of stack, and standing passes its limit.
#[derive(Clone, Copy)]
pub enum Link {
    NoWay,
    AtRoot,
    To(u8),
}

// The link of a slot at a second.
fn link_at(store: &[u8; STORE_LENGTH], slot: Slot, second: u64) -> Link
    requires { valid_store store.now ≡ true }
    ensures { result ≡ link_at store.now second slot }
{
    if !filled(store, slot) {
        return Link::NoWay;
    }
    let asked = Conditions {
        second,
        place: None,
        gone: None,
    };
    match step_at(store, slot, &asked, FOLLOWERS) {
        Ok(Some(issuer)) => Link::To(issuer.index() as u8),
        Ok(None) => Link::AtRoot,
        Err(_) => Link::NoWay,
    }
}

// The links of all slots: each certificate is looked at once. The array is lent: one that is returned stands on the stack twice.
pub fn write_links(store: &[u8; STORE_LENGTH], second: u64, links: &mut [Link; SLOTS])
    requires { valid_store store.now ≡ true }
    ensures { Links store.now second links.new }
{
    for (i, link) in links.iter_mut().enumerate() {
        *link = link_at(store, Slot::at(i), second);
    }
}
