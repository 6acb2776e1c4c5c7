// The text of the page program: what it prints for its input (document 01, "The page program").
#![tactic(auto)]

mod lines; // the lines, each written at a place of a lent buffer
pub mod sizes; // how long the input is, and the texts at most
mod whole; // the whole text

pub use whole::page;
