ghost use Rattle.std.specs.Prelude.{◌≡◌, Some};
ghost use Rattle.octets.specs.Outcomes.{answer_of};
ghost use Rattle.store.specs.Slots.{id_at};
ghost use Rattle.store.specs.Search.{find};
ghost use Rattle.chain.specs.Stored.{subject_at, walk_number};
ghost use Rattle.chain.specs.Computed.{also_at, gone_of, up_of, Leads, walked_on};

use crate::steps::step_at;
use crate::subjects::Conditions;
use octets::refusals::Refusal;
use store::sizes::STORE_LENGTH;
use store::slot::Slot;

// How many certificates may follow the first of a walk: the eighth must be a root.
pub const FOLLOWERS: u8 = 7;

// The walk goes on after a step: it ends where the step ended it, or goes on with the issuer that was found; at most `left` certificates
// may follow the one that the step was made from. It calls itself, and the step is a call of its own, so that each of eight certificates
// takes little stack.
pub fn walk_on(
    store: &[u8; STORE_LENGTH],
    up: Result<Option<Slot>, Refusal>,
    asked: &Conditions,
    left: u8,
) -> Result<(), Refusal>
    requires { Leads store.now left (up_of up) }
    ensures { answer_of result ≡ walked_on (also_at store.now (gone_of asked.now.gone)) store.now asked.now.second asked.now.place left (up_of up) }
{
    match up? {
        None => Ok(()),
        Some(issuer) => {
            let rest = left - 1;
            let next = step_at(store, issuer, asked, rest);
            walk_on(store, next, asked, rest)
        }
    }
}

// The walk from a stored certificate, which its id finds; at most `left` certificates may follow it.
pub fn walk_at(
    store: &[u8; STORE_LENGTH],
    slot: Slot,
    asked: &Conditions,
    left: u8,
) -> Result<(), Refusal>
    requires { find store.now (id_at store.now slot) ≡ Some slot }
    ensures { answer_of result ≡ walk_number (also_at store.now (gone_of asked.now.gone)) store.now asked.now.second asked.now.place left (subject_at store.now slot) }
{
    let first = step_at(store, slot, asked, left);
    walk_on(store, first, asked, left)
}
