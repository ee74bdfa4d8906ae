//! Lists that are read, and what is asked of them, by example: their estates, what rules let through, what rules see of pods, the
//! workloads that these make, the rows of these, and reports of rows. It holds tests alone: a call each of all that may want memory.
//! What many other lists give stands in transcripts/.
//!
//! Each function has one or two values that own memory, which the next one borrows, and stops the test where a call is refused, so
//! that it has no early exit: what the proof of a function costs grows fast with the values that each of its exits lets go.
#![tactic(auto)]

#[cfg(test)]
mod addresses;
#[cfg(test)]
mod all_rows;
#[cfg(test)]
mod answers;
#[cfg(test)]
mod classes;
#[cfg(test)]
mod estates;
#[cfg(test)]
mod items;
#[cfg(test)]
mod layers;
#[cfg(test)]
mod list;
#[cfg(test)]
mod packets;
#[cfg(test)]
mod reports;
#[cfg(test)]
mod rows;
#[cfg(test)]
mod rule_answers;
#[cfg(test)]
mod rule_names;
#[cfg(test)]
mod ruled_list;
#[cfg(test)]
mod sides;
#[cfg(test)]
mod strangers;
#[cfg(test)]
mod traits;
#[cfg(test)]
mod workloads;
