//! The limits of a line, of a specification as of a script.

/// The greatest length of a line, in bytes.
pub const LINE_LIMIT: usize = 4096;

/// The greatest length of a name, in characters.
pub const NAME_LIMIT: usize = 24;

/// The greatest number of a line.
pub const NUMBER_LIMIT: u32 = 1_000_000;
