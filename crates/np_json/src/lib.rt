//! Reading of JSON objects: members by their type, paths and faults, and the form that a shape of members is
//! written in.
#![tactic(auto)]

mod fault;
mod field;
mod flaw;
pub mod laws;
mod meta;
mod pairs;
mod path;
mod scalars;
mod shape;

pub use fault::{FaultKind, ObjectFault, ReadFault};
pub use field::{
    Field, NumberOrText, either_field, flag_field, list_field, member, object_field, text_field,
    whole_field,
};
pub use flaw::{Flaw, ShapeFault, at, at_item, or_refuse, refuse};
pub use meta::{NamespacedName, NamespacedNameShape, TypeMeta, TypeMetaShape};
pub use pairs::pairs_field;
pub use path::{Path, Step};
pub use scalars::{
    AnyText, Flag, LabelMap, Name, Port, ProtocolName, Whole, Word, of_type, port_of,
};
pub use shape::{
    Shape, has_member, has_one_of, listed, must_be_object, optional, read_item, refuse_if,
    refuse_member_if, required,
};
