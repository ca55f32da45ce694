//! Laws of logs, whoever judges them: of one that is cut in two, and of one of which events are left out;
//! and the run that goes on after a cut, in a world of its own.
#![tactic(auto)]

mod cuts;
mod judged;
mod numbers;
mod ordered;
mod renewal;
mod repeats;
mod restarts;
mod stages;

pub use cuts::{chain, cut, cut_anywhere, quiet};
pub use judged::{judged_through, judged_without_operations, judged_without_repeats};
pub use numbers::renumber;
pub use ordered::{
    chained_in_order, last_in_order, ordered_within, rest_of_rest, same_blame,
    same_blame_without_labels, same_closing, same_closing_without_labels, same_cycles,
    same_cycles_without_labels, same_transactions, well_formed, within_in_order,
};
pub use renewal::{NotRenewed, renew, restart};
pub use repeats::{
    same_blame_without_repeats, same_closing_without_repeats, same_cycles_without_repeats,
    well_formed_without_repeats,
};
pub use restarts::{afresh, goes_back, goes_on, has_prologue, judged_the_same, quiet_prologue};
pub use stages::prologue;
