//! The report of a run: how many events there are, how many of each thread, and the verdict with the blocks to blame.
#![tactic(auto)]

mod alarm;
mod certificate;
mod closed;
mod counted;
mod lines;
mod names;

pub use alarm::alarm_line;
pub use certificate::certificate_lines;
pub use closed::{report, report_so_far};
pub use counted::report_counts;
pub use names::Names;
