// What a page that lists certificates asks of a store: what a slot holds, and which certificates stand.
#![tactic(auto)]

mod links; // where the walk goes from each slot
mod levels; // from which slots a root is reached, one certificate more at a time
mod operations; // the two operations

pub use operations::{standing, stored};
