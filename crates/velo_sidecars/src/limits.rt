//! The limits of a file of sites, each in one place.

/// The most bytes of a file.
pub const MAX_SITES_BYTES: usize = 268_435_456;

/// The most sites of a file.
pub const MAX_SITES: u32 = 1_000_000;

/// The most bytes of a place.
pub const MAX_PLACE_BYTES: usize = 1_000;
