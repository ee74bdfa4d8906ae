//! Parsing by example: members of JSON objects, and the objects and policies that single items are read as. It
//! holds tests alone.
#![tactic(auto)]

#[cfg(test)]
mod fields;
#[cfg(test)]
mod objects;
#[cfg(test)]
mod paths;
#[cfg(test)]
mod policies;
#[cfg(test)]
mod rules;
#[cfg(test)]
mod selectors;
#[cfg(test)]
mod shapes;
#[cfg(test)]
mod words;
