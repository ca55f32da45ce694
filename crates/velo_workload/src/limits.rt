//! The limits of a workload, each in one place.

/// The most bytes of a text.
pub const MAX_WORKLOAD_BYTES: usize = 16_777_216;

/// The most bytes of a name.
pub const MAX_NAME_LENGTH: usize = 32;

/// The most repeats that are open at one time.
pub const MAX_OPEN_REPEATS: usize = 8;

/// The most statements in the bodies of a text.
pub const MAX_STATEMENTS: usize = 1_000_000;

/// The most that a body may cost.
pub const MAX_COST: u64 = 16_777_216;

/// The most variables of a text.
pub const MAX_VARIABLES: usize = 65_535;
