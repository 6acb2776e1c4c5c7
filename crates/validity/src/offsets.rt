// Where the fields of a slot start, by octets: each in this octet, behind so many bits of it (specs/Layout of records).
use records::layout::{
    EAST_AT, END_AT, ISSUER_AT, KIND_AT, NAME_AT, NAME_LENGTH_AT, PERMISSION_COUNT_AT,
    PERMISSION_WIDTH, PERMISSIONS_AT, RECTANGLE_COUNT_AT, RECTANGLE_WIDTH, RECTANGLES_AT, SOUTH_AT,
    START_AT, STATE_AT, WEST_AT,
};

pub const ISSUER_OCTET: usize = ISSUER_AT / 8;

pub const STATE_OCTET: usize = STATE_AT / 8;

pub const KIND_OCTET: usize = KIND_AT / 8;

pub const START_OCTET: usize = START_AT / 8;

pub const END_OCTET: usize = END_AT / 8;

pub const NAME_LENGTH_OCTET: usize = NAME_LENGTH_AT / 8;

pub const NAME_OCTET: usize = NAME_AT / 8;

pub const RECTANGLE_COUNT_OCTET: usize = RECTANGLE_COUNT_AT / 8;

pub const RECTANGLES_OCTET: usize = RECTANGLES_AT / 8;

pub const PERMISSION_COUNT_OCTET: usize = PERMISSION_COUNT_AT / 8;

pub const PERMISSIONS_OCTET: usize = PERMISSIONS_AT / 8;

pub const NAME_SKIP: usize = NAME_AT % 8;

pub const RECTANGLES_SKIP: usize = RECTANGLES_AT % 8;

pub const PERMISSIONS_SKIP: usize = PERMISSIONS_AT % 8;

// Behind an odd number of permissions.
pub const ODD_PERMISSIONS_SKIP: usize = (PERMISSIONS_AT + PERMISSION_WIDTH) % 8;

// The octets of a rectangle, and those before its edges but the first.
pub const RECTANGLE_OCTETS: usize = RECTANGLE_WIDTH / 8;

pub const WEST_OCTETS: usize = WEST_AT / 8;

pub const SOUTH_OCTETS: usize = SOUTH_AT / 8;

pub const EAST_OCTETS: usize = EAST_AT / 8;

// The octets of two permissions.
pub const PAIR_OCTETS: usize = 2 * PERMISSION_WIDTH / 8;
