//! What the commands share: how a report fails, the ends that words name, and what of a report a sink took.
#![tactic(auto)]

mod ends;
mod failure;
mod fault;
mod status;
mod write_fault;

pub use ends::{end_text, workload_of};
pub use failure::Failure;
pub use fault::Fault;
pub use status::Status;
pub use write_fault::WriteFault;
