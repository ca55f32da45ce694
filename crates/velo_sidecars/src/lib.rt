//! What stands beside a log: sites, which say where in the source of a program each event happened, and lists of what is
//! known already, with what they mean by names.
#![tactic(auto)]

mod limits;
mod list;
mod list_fault;
mod list_line;
mod meaning;
mod site_fault;
mod site_line;
mod sites;

pub use limits::{MAX_PLACE_BYTES, MAX_SITES, MAX_SITES_BYTES};
pub use list::parse_list;
pub use list_fault::ListFault;
pub use list_line::{Entry, Mention, Scope};
pub use meaning::{add_numbers, has_all_locks, numbers_known};
pub use site_fault::SitesFault;
pub use sites::{Sites, place_in, seen_from};
