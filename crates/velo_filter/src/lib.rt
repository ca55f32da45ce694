//! The rest of a log, where the blocks of some labels are dissolved and the operations on some locks and variables left out.
#![tactic(auto)]

mod growth;
mod labels;
mod left;
mod marks;
mod thinned;

pub use labels::LabelSet;
pub use left::LeftOut;
pub use marks::{no_marks, stays_at};
pub use thinned::{Thinned, thin};
