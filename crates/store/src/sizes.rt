// The sizes of a store (specs/Slots).
use records::layout::SLOT_LENGTH;

pub const SLOTS: usize = 64;

pub const STORE_LENGTH: usize = SLOTS * SLOT_LENGTH;
