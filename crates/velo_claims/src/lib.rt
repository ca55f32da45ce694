//! What a report claims of a log, read from its text, and whether its certificate bears it out.
#![tactic(auto)]

mod claim;
mod fault;
mod judging;
mod limits;
mod line;

pub use claim::{Claim, ClaimedAlarm};
pub use fault::ReportFault;
pub use judging::{Outcome, Reason, is_verified, judge};
pub use limits::MAX_REPORT_BYTES;
