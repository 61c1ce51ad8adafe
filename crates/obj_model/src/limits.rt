//! The limits of objects and of the numbers that they meet, each named once.

/// The longest body of an object, in bytes.
pub const BODY_LIMIT: u64 = 1_048_576;

/// The most attributes of an object.
pub const ATTRS_LIMIT: u64 = 64;

/// The most entries of an object's omap.
pub const OMAP_LIMIT: u64 = 1_024;

/// The longest value of an attribute or an entry, in bytes.
pub const VALUE_LIMIT: u64 = 4_096;

/// The greatest number of a client. They begin at 1.
pub const CLIENT_LIMIT: u16 = 256;

/// The greatest number that a sub-operation may carry, and the greatest tid and count of a name:
/// 2^62.
pub const NUMBER_LIMIT: u64 = 1 << 62;
