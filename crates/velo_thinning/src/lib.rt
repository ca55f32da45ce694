//! A log without what adds nothing, since a lock keeps it in order or it repeats what is just before:
//! it is judged the same, whichever labels are left out.
//!
//! Which variables are free of races is found in one pass, with a vector clock for each thread, as in
//! Flanagan and Freund, "FastTrack: Efficient and Precise Dynamic Race Detection", PLDI 2009.
#![tactic(auto)]

mod counting;
mod delivering;
mod finder;
mod judging;
mod leaving;
mod ordered;
mod outcome;
mod reading;
mod sweep;
mod thinning;
mod without_ordered;

pub use delivering::{CountsText, Outgoing, Targets, deliver_thinned};
pub use finder::repeats;
pub use judging::first_flaw;
pub use leaving::without_repeats;
pub use ordered::ordered_variables;
pub use outcome::ThinnedLog;
pub use reading::{ThinFault, read_thinned};
pub use thinning::{thin_log, thin_rest};
pub use without_ordered::thin_ordered;
