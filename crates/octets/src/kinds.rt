// The kinds of certificates (001, clause 6.3), as far as document 01 reads them.
pub const TICKET: u8 = 1;

pub const AUTHORITY: u8 = 2;

pub const ROOT: u8 = 4;
