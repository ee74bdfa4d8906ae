//! Connections: sets of protocols and ports, and their text.
#![tactic(auto)]

mod conn_set;
mod conns_fault;
mod laws;
mod port_sets;
mod port_spot;
mod print;
mod proto;
mod read;

pub use conn_set::ConnSet;
pub use conns_fault::ConnsFault;
pub use laws::{equal_spots_have_one_text, one_text_has_one_set, runs_are_the_ports_that_pass};
pub use port_spot::PortSpot;
pub use print::print_conns;
pub use proto::Proto;
pub use read::read_conns;
