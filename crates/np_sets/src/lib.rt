//! Sets of points, such as ports or addresses, kept as ascending ranges.
//!
//! Everything of `np_base` is passed on, so that users of sets find it here.
#![tactic(auto)]

mod complement;
mod interval_set;
mod join;
mod meet;
mod member;
mod minus;
mod point_range;
mod points;
mod ranges;
mod same;

pub use interval_set::IntervalSet;
pub use np_base::{
    Beside, Cells, NoMemory, Point, PortNum, Range, Seq, Text, TryCopy, V4, V6, Which,
};
