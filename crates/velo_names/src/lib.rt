//! Names of threads, variables, locks and labels: the text of a file of names, and the mapping that
//! it says.
#![tactic(auto)]

mod fault;
mod growth;
mod kind;
mod kind_names;
mod laws;
mod limits;
mod line;
mod names;
mod pattern;
mod write;

pub use fault::NamesFault;
pub use kind::NameKind;
pub use laws::{one_line, read_back};
pub use limits::{MAX_NAME_BYTES, MAX_NAME_LINES, MAX_NAMES_BYTES};
pub use line::{has_control, is_name, is_number, number_of_kind, split_line};
pub use names::Names;
pub use pattern::is_like;
pub use write::append_names;
