//! Where a watch stands.

use velo_logtext::LogReader;
use velo_world::RecordedWorld;

/// A log that is watched as it comes.
#[derive(Drop)]
pub struct Watch {
    pub(crate) reader: LogReader,
    /// The events so far.
    pub(crate) world: RecordedWorld,
    /// Whether an alarm was told.
    pub(crate) told: bool,
}
