//! Schedules as text: `0 0 0 1 0`, or by turns `0*3 1 0`, is three turns of thread 0, one of thread
//! 1 and one more of thread 0.
#![tactic(auto)]

mod file;
mod laws;
mod limits;
mod schedule;
mod short;
mod turns;

pub use file::schedule_in;
pub use laws::{numbers_are_turns, one_schedule, reads_back};
pub use limits::{MAX_SCHEDULE_BYTES, MAX_TURNS};
pub use schedule::{ScheduleFault, schedule_of, turns_of};
pub use short::append_turns;
