// The states of a slot (specs/Slots).
// Kept: no enum: the two bits of any octets may also be 3, and what is read is compared with one state.
pub const EMPTY: u8 = 0;

pub const HELD: u8 = 1;

pub const GONE: u8 = 2;
