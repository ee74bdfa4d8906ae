//! `evaluate`: the verdict on one packet.
#![tactic(auto)]

mod report;

pub use report::{PacketWords, evaluate};
