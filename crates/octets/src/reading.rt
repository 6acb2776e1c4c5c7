// What a reader of a layout answers.
use crate::refusals::Refusal;

// A value that was read, with the position after it; or why it is refused.
pub type Read<T> = Result<(T, usize), Refusal>;
