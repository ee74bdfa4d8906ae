//! Which far ends the sides of pods may let through at all, so that what passes need be asked of few pairs of pods.
#![tactic(auto)]

mod concerns;
mod laws;
mod reach;
mod speaker;
mod spoken;
mod stretches;

pub use laws::no_port_out_of_reach;
pub use reach::Reach;
