// The numbers of Arrow's types, as Schema.fbs has them. No enum: each is matched once, and an enum would need another table,
// from the numbers to its variants.
pub(crate) const NULL: u8 = 1;

pub(crate) const INT: u8 = 2;

pub(crate) const FLOATING_POINT: u8 = 3;

pub(crate) const BINARY: u8 = 4;

pub(crate) const UTF8: u8 = 5;

pub(crate) const BOOL: u8 = 6;

pub(crate) const DECIMAL: u8 = 7;

pub(crate) const DATE: u8 = 8;

pub(crate) const TIME: u8 = 9;

pub(crate) const TIMESTAMP: u8 = 10;

pub(crate) const INTERVAL: u8 = 11;

pub(crate) const LIST: u8 = 12;

pub(crate) const STRUCT: u8 = 13;

pub(crate) const UNION: u8 = 14;

pub(crate) const FIXED_SIZE_BINARY: u8 = 15;

pub(crate) const FIXED_SIZE_LIST: u8 = 16;

pub(crate) const MAP: u8 = 17;

pub(crate) const DURATION: u8 = 18;

pub(crate) const LARGE_BINARY: u8 = 19;

pub(crate) const LARGE_UTF8: u8 = 20;

pub(crate) const LARGE_LIST: u8 = 21;

pub(crate) const BINARY_VIEW: u8 = 23;

pub(crate) const UTF8_VIEW: u8 = 24;

pub(crate) const LIST_VIEW: u8 = 25;

pub(crate) const LARGE_LIST_VIEW: u8 = 26;
