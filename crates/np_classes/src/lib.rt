//! Classes of equal keys, as places of a list.
#![tactic(auto)]

mod by_number;
mod classes;
mod laws;

pub use by_number::groups;
pub use classes::Classes;
pub use laws::{
    agreeing_relations_have_the_same_classes, alike_places_have_one_class,
    first_places_stand_for_classes, members_are_of_one_class, ties_of_keys_are_alike,
};
