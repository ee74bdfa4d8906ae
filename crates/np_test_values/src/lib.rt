//! Tests that cross crates, on the public surface of the libraries.
#![tactic(auto)]

#[cfg(test)]
mod addresses;
#[cfg(test)]
mod connections;
#[cfg(test)]
mod gathered;
#[cfg(test)]
mod io;
#[cfg(test)]
mod kept;
#[cfg(test)]
mod labels;
#[cfg(test)]
mod pieces;
#[cfg(test)]
mod references;
#[cfg(test)]
mod requirements;
#[cfg(test)]
mod sets;
#[cfg(test)]
mod tiers;
