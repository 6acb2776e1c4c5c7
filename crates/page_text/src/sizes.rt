// The sizes of what the program takes and gives.
use records::layout::ID_LENGTH;
use store::sizes::STORE_LENGTH;

// The input (specs/Page): the store, the id and the second.
pub const ID_END: usize = STORE_LENGTH + ID_LENGTH;

pub const INPUT_LENGTH: usize = ID_END + 4;

// The longest text: `page_length` of specs/Sizes.
pub const PAGE_LENGTH: usize = 6144;
