//! Values over a space of points, such as the connections that are allowed at each address, kept as pieces of the space
//! with one value each. Where the values are sets, the whole is a set too: of spots at points.
#![tactic(auto)]

mod append;
mod combine;
mod member;
mod operation;
mod over;
mod overlap;
mod piece;
mod pieces;
mod same;

pub use piece::{At, Piece};
pub use pieces::Pieces;
