//! Certificates for traces that others can check: a serial order of a trace without a cycle, and a
//! shortest cycle. The checkers trust nobody.
#![tactic(auto)]

mod chains;
mod cycle;
mod distances;
mod edges;
mod fault;
mod links;
mod nearest;
mod numbered;
mod order;
mod owners;
mod reached;
mod serial;
mod threads;
mod witness;

pub use cycle::{check_cycle, cycle_of};
pub use edges::{EdgeEvents, edge_events_of};
pub use fault::CertFault;
pub use order::check_order;
pub use owners::owners_of;
pub use serial::serial_order;
pub use witness::witness_of;
