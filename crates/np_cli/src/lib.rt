//! The program without its outside.
#![tactic(auto)]

mod commands;
mod in_memory;
mod kept_sink;
mod outcome;
mod run;

pub use in_memory::{Answered, answer};
pub use np_command::Status;
pub use run::{np_main, say_failure};
