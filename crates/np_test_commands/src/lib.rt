//! The libraries of the commands, asked by name about lists as kubectl prints them, and the program, asked as one that embeds it asks.
//! It holds tests alone.
#![tactic(auto)]

#[cfg(test)]
mod answered;
#[cfg(test)]
mod asked;
#[cfg(test)]
mod explained;
#[cfg(test)]
mod exposed;
#[cfg(test)]
mod flat;
#[cfg(test)]
mod routed;
#[cfg(test)]
mod sampled;
#[cfg(test)]
mod stated;
#[cfg(test)]
mod told;
#[cfg(test)]
mod unused;
