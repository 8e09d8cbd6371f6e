// The kinds of rows: numbers, as a row has them, which `Kind` of the crate `schemas` is made of.
/// A type that has no row kind.
pub const OTHER: u8 = 0;

pub const NULL: u8 = 1;

pub const BOOL: u8 = 2;

pub const FIXED: u8 = 3;

pub const BINARY: u8 = 4;

pub const LARGE_BINARY: u8 = 5;

pub const VIEW: u8 = 6;

pub const LIST: u8 = 7;

pub const LARGE_LIST: u8 = 8;

pub const LIST_VIEW: u8 = 9;

pub const LARGE_LIST_VIEW: u8 = 10;

pub const FIXED_SIZE_LIST: u8 = 11;

pub const STRUCT: u8 = 12;

pub const DICTIONARY: u8 = 13;

pub const SPARSE_UNION: u8 = 14;

pub const DENSE_UNION: u8 = 15;
