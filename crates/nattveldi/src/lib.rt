// Nattveldi: the operations and their types. Nothing else is here.
#![tactic(auto)]

pub use admission::{admit, install};
pub use certificate::certificates::Certificate;
pub use certificate::operations::{id, read};
pub use geo::Position;
pub use octets::refusals::Refusal;
pub use overview::{standing, stored};
pub use page_text::page;
pub use records::Record;
pub use slot_lists::Listed;
pub use verification::{Decision, Prepared, Question, Situation, decide, payload, prepare};
pub use withdrawal::{list, withdraw};
