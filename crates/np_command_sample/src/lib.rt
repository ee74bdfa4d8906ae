//! `sample`: how many rows the table of a sample has.
#![tactic(auto)]

mod laws;
mod report;

pub use laws::{
    samples_are_read_as_their_estates, samples_have_few_bytes, samples_have_few_rows,
    samples_have_few_workloads,
};
pub use report::count_rows;
