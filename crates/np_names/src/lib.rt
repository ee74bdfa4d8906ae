//! Names for things of which several may have one name: a number follows where they do.
#![tactic(auto)]

mod by_name;
mod laws;
mod named;
mod numbered;

pub use by_name::all_by_name;
pub use laws::{
    each_thing_has_one_number, names_are_apart, names_stand_in_order, no_thing_is_lost,
    things_stand_in_order,
};
pub use named::Named;
