//! The types that everything else of `np` stands on: texts and lists that contracts see by their contents,
//! points that are numbers in a range, the laws of sets of spots, and a counter of steps that costs nothing at run time.
#![tactic(auto)]

mod beside;
mod cells;
mod ip_numbers;
mod joins;
mod no_memory;
mod point;
mod port_num;
mod range;
mod references;
mod seq;
mod steps;
mod text;
mod try_copy;

pub use beside::{Beside, Which};
pub use cells::Cells;
pub use ip_numbers::{V4, V6};
pub use joins::join_all;
pub use no_memory::NoMemory;
pub use point::{Point, earlier, later};
pub use port_num::PortNum;
pub use range::Range;
pub use references::push_references;
pub use seq::Seq;
pub use steps::Steps;
pub use text::Text;
pub use try_copy::TryCopy;
