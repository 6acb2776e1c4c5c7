ghost use Rattle.std.specs.Prelude.{◌≡◌, true, get_or};
ghost use Rattle.store.specs.Slots.{slot_count};
ghost use Rattle.validity.specs.Valid.{valid_store};
ghost use Rattle.chain.specs.Stored.{stands};
ghost use Rattle.slot_lists.specs.Computed.{bits_from};
ghost use Rattle.overview.specs.declared.links.Link.TheVariants.{NoWay};
ghost use Rattle.overview.specs.Computed.{Below, Within, leads_to};

use crate::links::{Link, write_links};
use chain::walking::FOLLOWERS;
use store::sizes::{SLOTS, STORE_LENGTH};

// Whether a link leads to a slot of the set, or is a root's.
#[tactic(auto, using(std::proofs::lemmas::Bool::Decides::nat_tests), unfolding(crate::specs::Computed::leads_to))]
fn leads(set: u64, link: Link) -> bool
    requires { Below link }
    ensures { result ≡ leads_to set link }
{
    match link {
        Link::To(slot) => (set >> slot) % 2 == 1,
        Link::AtRoot => true,
        Link::NoWay => false,
    }
}

// The slots whose links lead to a slot of the set, or are a root's: with one certificate more than those of the set.
fn raised(links: &[Link; SLOTS], set: u64) -> u64
    requires { Within links.now }
    ensures { result ≡ bits_from (λ i. leads_to set (get_or links.now i NoWay)) 0 slot_count }
{
    let mut next = 0;
    for i in (0..SLOTS).rev() {
        next = next * 2 + u64::from(leads(set, links[i]));
    }
    next
}

// The slots of the certificates that stand at a second, as a set: bit i is slot i. After n rounds the set has those from which a chain
// of at most n certificates reaches a root; a round that adds none is the last. Not inlined: its frame is made after the check of the
// store, which has the largest one, has gone.
#[inline(never)]
pub fn standing_set(store: &[u8; STORE_LENGTH], second: u64) -> u64
    requires { valid_store store.now ≡ true }
    ensures { result ≡ bits_from (stands store.now second) 0 slot_count }
{
    let mut links = [Link::NoWay; SLOTS];
    write_links(store, second, &mut links);
    let mut set = 0;
    for _ in 0..=FOLLOWERS {
        let next = raised(&links, set);
        if next == set {
            return set;
        }
        set = next;
    }
    set
}
