//! A log that is watched as it comes: its events come about one by one, and the alarm is told at once.
//! A log without end is cut where no block is open, and goes on behind a prologue; where something is
//! left out, what is left is judged.
#![tactic(auto)]

mod alarm;
mod endless;
mod fault;
mod long;
mod piece;
mod rest;
mod rest_watch;
mod state;
mod summary;
mod watch;
mod whole_log;

pub use endless::EndlessWatch;
pub use fault::WatchFault;
pub use long::{LongReader, MAX_WATCHED};
pub use piece::LogPiece;
pub use rest::ClosedRest;
pub use rest_watch::RestWatch;
pub use state::Watch;
pub use summary::Whole;
