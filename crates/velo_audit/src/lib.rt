//! Which labels' blocks are not atomic in a log: by rounds of checking the rest of it, in each of which the labels are left
//! out that the one before reported; and which blocks are to blame somewhere in a log, and how many of those of a label are.
//!
//! Blame is that of Flanagan, Freund and Yi, "Velodrome: A Sound and Complete Dynamic Atomicity
//! Checker for Multithreaded Programs", PLDI 2008. A tally says it of every block of a log, not
//! only of those that are open where the first cycle is closed.
#![tactic(auto)]

mod checked;
mod count;
mod cut;
mod first;
mod marks;
mod open;
mod piece;
mod pieces;
mod reach;
mod round;
mod rounds;
mod tally;
mod told;
mod witness;

pub use checked::audit_checked;
pub use count::count_labels_left;
pub use first::{FirstAlarm, first_alarm};
pub use marks::{BlameMarks, marks_of};
pub use round::AuditFault;
pub use rounds::audit;
pub use tally::{LabelTally, tally_of};
pub use told::Told;
