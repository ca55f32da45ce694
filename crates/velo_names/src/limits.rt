//! The limits of a file of names, each in one place.

/// The most bytes of a file.
pub const MAX_NAMES_BYTES: usize = 16_777_216;

/// The most lines of a file.
pub const MAX_NAME_LINES: usize = 1_000_000;

/// The most bytes of a name.
pub const MAX_NAME_BYTES: usize = 200;
