//! `exposure`: what a pod that nobody has written yet could reach, and be reached by.
#![tactic(auto)]

mod known_rows;
mod laws;
mod light_sides;
mod report;

pub use laws::workloads_stand_for_their_pods_to_strangers;
pub use report::{ShownSide, exposure_of};
