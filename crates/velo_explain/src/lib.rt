//! A verdict in words, for people: the cycle of an alarm, event by event, the blocks to blame and
//! why.
#![tactic(auto)]

mod count;
mod evidence;
mod fitting;
mod lanes;
mod latest;
mod marks;
mod order;
mod pairs;
mod pieces;
mod places;
mod spans;
mod words;
mod writing;

pub use count::transactions_of;
pub use evidence::{Blame, Evidence, evidence_of};
pub use pairs::accesses_of;
pub use pieces::{Page, Piece};
pub use spans::Span;
pub use words::{add_heading, add_members, add_reasons, line_of, next_number};
pub use writing::{explain_clean, explain_named, explain_sited};
