//! A log that was thinned.
ghost use Rattle.std.specs.Prelude.{◌≤◌, length};
ghost use Rattle.velo_events.specs.declared.limits.TheConstants.{MAX_EVENTS};

use velo_events::Config;
use velo_filter::Thinned;

/// A log that was thinned.
#[derive(Drop)]
pub struct ThinnedLog {
    /// Its configuration, by its bounds, which stay.
    pub config: Config,
    /// What is left of it.
    pub left: Thinned,
    /// How many events it had.
    pub events: usize,
    /// How many variables its events accessed.
    pub variables: u32,
    /// How many those that are left access.
    pub variables_left: u32,
    ghost few_variables: { config.bounds.variables ≤ 65535 },
    ghost few: { length left.trace.events ≤ MAX_EVENTS },
}
