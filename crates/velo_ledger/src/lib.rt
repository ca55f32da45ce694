//! A book with a row for each thread of a run, and the shares, which hold for each thread what its
//! row says.
#![tactic(auto)]

mod book;
mod share;
mod shares;
mod tally;

pub use book::{Book, gather, gather_both};
pub use share::Share;
pub use shares::Shares;
pub use tally::Tally;
