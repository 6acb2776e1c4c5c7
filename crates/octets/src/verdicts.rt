// The chip's verdict on a good signature; every other octet says that it is not.
pub const GOOD: u8 = 1;
