//! What stands around the report of a job: its inputs, each read once, in order, and what they say; the notes on what the
//! report leaves out; and the line that tells why there is none.
#![tactic(auto)]

mod failure_lines;
mod folded;
mod job_texts;
mod laws;
mod notes;
mod one_line;
mod sources;

pub use failure_lines::{constant_line, failure_line};
pub use job_texts::{names_of, read_objects};
pub use laws::failures_are_told_in_one_line;
pub use notes::{PreparedNotes, ReportNotes};
pub use sources::{SIZE_LIMIT, SourceFault, read_all};
