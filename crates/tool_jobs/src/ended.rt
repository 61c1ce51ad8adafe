//! The exit statuses of the program.

/// All was done and told.
pub const ANSWERED: u8 = 0;

/// The words of the command line are refused.
pub const MISUSED: u8 = 2;

/// The script is refused.
pub const REFUSED: u8 = 4;

/// What a disk holds is refused.
pub const IMAGE_REFUSED: u8 = 5;

/// A disk failed.
pub const DISK_FAILED: u8 = 6;

/// The source failed.
pub const SOURCE_FAILED: u8 = 7;

/// The sink failed.
pub const SINK_FAILED: u8 = 8;

/// Memory lacked.
pub const OUT_OF_MEMORY: u8 = 9;
