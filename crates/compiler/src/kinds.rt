// The kinds of the book's records, as the bytes that they begin with.
// Not here: the kinds of code records (code).
use book::Kind;

pub const SPLIT: u8 = Kind::Split as u8;

pub const RULE: u8 = Kind::Rule as u8;

pub const RIGHT: u8 = Kind::Right as u8;

pub const CON: u8 = Kind::Con as u8;

pub const CALL: u8 = Kind::Call as u8;

pub const SLOT: u8 = Kind::Slot as u8;

pub const FRESH: u8 = Kind::Fresh as u8;

pub const NONE: u8 = Kind::None as u8;
