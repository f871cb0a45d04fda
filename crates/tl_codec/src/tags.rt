//! Constructor numbers and limits of TL values.

/// `vector#1cb5c415 {t:Type} # [ t ] = Vector t`.
pub const VECTOR: u32 = 0x1cb5c415;

/// `boolTrue#997275b5 = Bool`.
pub const BOOL_TRUE: u32 = 0x997275b5;

/// `boolFalse#bc799737 = Bool`.
pub const BOOL_FALSE: u32 = 0xbc799737;

/// The longest string, in bytes: its length has three of them.
pub const BYTES_MAX: usize = 16_777_215;

/// The most numbers in a list; the standard lets at most 8,192 identifiers stand in one.
pub const LONGS_MAX: usize = 8_192;

/// The bytes of an `int`; a string takes a multiple of them.
pub(crate) const WORD_BYTES: usize = 4;

/// The bytes of a `long`.
pub(crate) const LONG_BYTES: usize = 8;
