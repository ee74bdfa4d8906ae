//! A line of a file with its ends found.

use np_check::Question;

/// What the statement of a line asks, with its ends found in a cluster.
#[derive(Drop)]
pub struct AskedLine {
    pub line: u64,
    pub question: Question,
}
