//! Statements about a cluster: what must be allowed or denied between some ends, and the first packet that breaks one.
#![tactic(auto)]

mod addresses;
mod checker;
mod checking;
mod claim;
mod counterexample;
mod laws;
mod order;
mod pairs;
mod question;
mod statement;

pub use checker::Checker;
pub use counterexample::{Counterexample, PlaceEnd};
pub use laws::{nothing_is_found_where_a_statement_holds, the_first_packet_is_found};
pub use question::{Ends, Question, Wanted};
pub use statement::Statement;
