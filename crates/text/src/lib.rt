// Texts, as ASCII octets, written at a place of a lent buffer. Each function answers the place behind what it wrote.
// Kept: a place in, the next place out; a writer would be no plainer, as each contract would speak of a buffer lent inside it.
#![tactic(auto)]

pub mod pieces; // octets as they are
pub mod hexadecimal; // octets as hexadecimal digits
pub mod decimal; // numbers
