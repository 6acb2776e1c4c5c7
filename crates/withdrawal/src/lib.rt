// The withdrawal page's list, and the withdrawal (list and withdraw of document 01).
#![tactic(auto)]

mod asking; // the tests that list and withdraw share
mod falling; // which certificates fall by a withdrawal
mod operations; // the two operations, and both one after the other

pub use operations::{Both, list, list_then_withdraw, withdraw};
