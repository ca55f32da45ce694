//! Findings as lines for a person.
mod accesses;
mod places;
mod predictions;
mod whole;
mod witness;
mod words;

pub use accesses::add_accesses;
pub use predictions::{is_something_told, predictions_text};
pub use whole::audit_text;
pub use witness::blocks_around;
pub use words::{Asked, add_asked};
