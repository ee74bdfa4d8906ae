//! A line of a file that holds a statement.

use crate::statement_text::StatementText;

/// A statement at its line of a file, by the line's number from 1.
#[derive(Drop)]
pub struct StatementLine {
    pub line: u64,
    pub statement: StatementText,
}
