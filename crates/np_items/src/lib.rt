//! The items that lists of objects hold: from the bytes of inputs to objects and policies, or the first fault.
//!
//! Each input is one JSON text: a `v1` List, as `kubectl get -o json` prints it, or a single object. Items are
//! numbered from 1 over all inputs in order.
#![tactic(auto)]

mod fault;
mod inputs;
mod item;
mod items;
mod json;
pub mod laws;
mod list;
mod read;

pub use fault::ItemsFault;
pub use item::Item;
pub use read::read_items;
