//! The file of statements that a cluster is checked against: its lines, their ends in the cluster, and the first line that
//! does not hold.
#![tactic(auto)]

mod all_pods;
mod asked_line;
mod broken;
mod checking;
mod end_fault;
mod ends;
mod file_fault;
mod find;
mod grammar;
mod laws;
mod print;
mod read;
mod statement_line;
mod statement_text;

pub use asked_line::AskedLine;
pub use broken::Broken;
pub use checking::first_broken;
pub use end_fault::EndFault;
pub use file_fault::FileFault;
pub use grammar::read_statement;
pub use laws::{
    ends_are_those_of_their_forms, lines_are_counted_by_line_feeds, lines_are_read_by_the_grammar,
    lines_ask_what_their_statements_say, nothing_is_broken_where_a_file_holds,
    one_statement_of_a_line, text_of_a_statement_reads_again, the_first_broken_line_is_found,
    unknown_names_are_of_no_workload,
};
pub use print::print_broken;
pub use read::read_statements;
pub use statement_line::StatementLine;
pub use statement_text::{EndForm, StatementFault, StatementText};
