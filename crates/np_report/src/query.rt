//! Which rows are asked for.
ghost use Rattle.std.specs.Prelude.{◌≡◌};
ghost use Rattle.np_report.specs.Keeps as spec;

use np_args::FocusSide;
use np_table::{RowEnd, RowKey};

/// Which rows of a table are asked for.
#[derive(Clone, Copy, PartialEq, Eq)]
pub enum Query {
    /// All of them.
    All,
    /// Those that have this workload at the side.
    Work { workload: u32, side: FocusSide },
}

/// Whether a query asks for the rows of a key: of a workload it does where the source, the destination, or either of them
/// is that workload, as the side says.
pub fn keeps(query: &Query, key: &RowKey) -> bool
    ensures { result ≡ spec.keeps query.now key.now }
{
    match *query {
        Query::All => true,
        Query::Work { workload, side } => match side {
            FocusSide::Either => is_workload(workload, &key.source)
                || is_workload(workload, &key.destination),
            FocusSide::Source => is_workload(workload, &key.source),
            FocusSide::Destination => is_workload(workload, &key.destination),
        },
    }
}

// Whether an end of a row is the workload of the number.
fn is_workload(number: u32, end: &RowEnd) -> bool
    ensures { result ≡ spec.is_workload number end.now }
{
    match end {
        RowEnd::Work(other) => *other == number,
        RowEnd::Span(_) | RowEnd::Controller => false,
    }
}
