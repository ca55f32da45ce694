//! A log that is checked, or carried over: what was asked for, what is read, saved and printed, and how
//! it ends.
#![tactic(auto)]

mod answer;
mod beside;
mod carrying;
mod check;
mod failure;
mod fate;
mod fault;
mod files;
mod input;
mod operands;
mod reading;
mod request;
mod saved;
pub mod status;
mod verdict;

pub use answer::{Answer, Save, StreamedText, deliver, save_all};
pub use beside::read_file;
pub use carrying::{CarryFault, carry_run, fate_of_carrying};
pub use check::{check_run, check_source, fate_of, finish};
pub use failure::{Failure, Operand};
pub use fate::{Fate, end_line, end_with, fate_of_failure, last_line, number_of};
pub use fault::CheckFault;
pub use files::{Files, is_standard_input, open_at};
pub use input::{config_of, do_input, do_log, fault_of};
pub use operands::{Beside, list_beside, open_apart, open_input};
pub use reading::{ReadFault, read_whole};
pub use request::{
    AuditOptions, CarryOptions, CheckOptions, DEFAULT_SEED, DEFAULT_TRIES, EndlessOptions,
    ExplainOptions, ExploreOptions, Ignorable, Ignored, Limits, MAX_RUNS, MAX_SECONDS, MAX_STATES,
    MAX_TRIES, PredictOptions, RandomRuns, ReplayOptions, Request, RunOptions, ScheduleSource,
    TextOrJson, ThinOptions, VerifyOptions, WatchOptions, WatchRestOptions,
};
pub use saved::Saved;
pub use verdict::{Verdict, is_alarm, order_or_cycle_of, verdict_of, write_output};
