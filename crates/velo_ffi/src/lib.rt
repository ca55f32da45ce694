//! What programs in other languages call: a monitor that they keep by a handle, and one call for
//! each event.
#![tactic(auto)]

mod answers;
mod events;
mod explaining;
mod gathered;
mod growth;
mod held;
mod kept;
mod laws;
mod lines;
mod live;
mod logs;
mod monitor;
mod numbers;
mod renewal;
mod texts;
mod verdicts;
mod watch;
mod words;

pub use laws::pieces_make_the_log;
