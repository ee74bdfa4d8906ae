//! Where bytes come from and where they go: sources of named inputs and sinks, in memory and in the system, each
//! with counts of its failures, and the calls that read a whole input and write whole bytes.
#![tactic(auto)]

mod buffered_sink;
mod counts;
mod given_system;
mod held;
mod inputs;
mod mem_inputs;
mod mem_sink;
mod real_inputs;
mod real_sink;
mod real_system;
mod sink;
mod system;
mod whole;

pub use buffered_sink::BufferedSink;
pub use given_system::GivenSystem;
pub use held::Held;
pub use inputs::{InputFailed, Inputs};
pub use mem_inputs::MemInputs;
pub use mem_sink::MemSink;
pub use real_inputs::RealInputs;
pub use real_sink::RealSink;
pub use real_system::{Opened, RealSystem};
pub use sink::{Sink, SinkFailed};
pub use system::System;
pub use whole::{WholeFault, read_whole, write_whole};
