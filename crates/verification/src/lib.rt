// The check of a signed message: prepare its signature questions, and decide it (document 01, "Order of checks").
#![tactic(auto)]

mod judging; // what prepare and decide share
mod operations; // the two operations
mod payloads; // the payload as a part of the message

pub use judging::Situation;
pub use operations::{Decision, Prepared, Question, decide, prepare};
pub use payloads::payload;
