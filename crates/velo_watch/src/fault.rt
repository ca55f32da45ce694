//! Why a watch ended.
use velo_logtext::LogFault;
use velo_world::LogReplayFault;

/// Why a watch ended before its log did.
#[derive(Clone, Copy, PartialEq, Eq)]
pub enum WatchFault {
    /// The log could not be read.
    Log(LogFault),
    /// An event can't come about.
    Replay(LogReplayFault),
    /// The sink failed; a beginning of the alarm's line was written.
    Write,
}
