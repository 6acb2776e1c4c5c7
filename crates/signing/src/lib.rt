// The signer of a message, and what it may: in time and place, stored or carried, a ticket whose chain reaches a root, its_aid.
#![tactic(auto)]

pub mod fields; // what a message says that was read
pub mod times; // whether a message is in time
pub mod places; // where it is checked
mod copies; // a carried certificate and its stored copy
mod entitled; // whether a signer may sign this here and now
pub mod signers; // the signer of a message
