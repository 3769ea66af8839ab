// The numbers of a type byte. They are numbers, and no enum: an item answers the byte of the stream as it stands, its length bits too,
// and the tables of the reader go by its halves.

// Type codes, the high four bits.
pub const BOOL: u8 = 1;

pub const POSITIVE_INT: u8 = 2;

pub const NEGATIVE_INT: u8 = 3;

pub const FLOAT: u8 = 4;

pub const DECIMAL: u8 = 5;

pub const TIMESTAMP: u8 = 6;

pub const SYMBOL: u8 = 7;

pub const STRING: u8 = 8;

pub const CLOB: u8 = 9;

pub const BLOB: u8 = 10;

pub const STRUCT: u8 = 13;

pub const ANNOTATIONS: u8 = 14;

pub const RESERVED: u8 = 15;

// Low four bits that are not a length: of a sorted struct, of a length that is a field, of a null.
pub const SORTED: u8 = 1;

pub const LONG: u8 = 14;

pub const NULL: u8 = 15;

// The type byte of a version marker, which begins nothing else.
pub const MARKER: u8 = 0xE0;
