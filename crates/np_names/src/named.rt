//! Things by their names.

use np_base::Text;

/// The name of a thing, and its place among all things, from 0. They stand in the byte order of their names, and those
/// of one name in the order of their places.
#[derive(Debug, PartialEq, Eq, PartialOrd, Ord, Drop)]
pub struct Named {
    pub name: Text,
    pub place: u32,
}
