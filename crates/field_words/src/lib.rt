// The fields of a certificate as words in a buffer.
#![tactic(auto)]

mod words; // words of four octets in a buffer
mod fields; // the fields of a certificate as words

pub use fields::{FIELDS_LENGTH, write_fields, write_rectangles};
pub use words::write_words;
