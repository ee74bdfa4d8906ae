//! Rows that wait for those of the other case.
ghost use Rattle.std.specs.Prelude.{IfOk};
ghost use Rattle.np_exposure.specs.steps.Walks.{Fills, IsJoinedBy};

use crate::open_row::{OpenRow, joined};
use crate::sided_requirement::SidedRequirement;
use np_base::{NoMemory, Seq};

/// The rows of one case of a requirement, until those of the other are known.
#[derive(Drop)]
pub(crate) struct Pending<'a> {
    pub requirement: &'a SidedRequirement,
    /// Whether it is the case that the requirement is met.
    pub wanted: bool,
    pub rows: Vec<OpenRow<'a>>,
}

impl<'a> Pending<'a> {
    // The rows of the requirement, with those of the other case.
    fn joined(self, others: Vec<OpenRow<'a>>) -> Result<Vec<OpenRow<'a>>, NoMemory>
        ensures { IfOk result (λ made.
            IsJoinedBy self.entry.requirement.now self.entry.wanted self.entry.rows.items others.entry.items made.items) }
    {
        if self.wanted {
            joined(self.requirement, self.rows, others)
        } else {
            joined(self.requirement, others, self.rows)
        }
    }
}

/// The rows of the first requirement that waits, from those of the last.
pub(crate) fn all_joined<'a>(
    pending: Seq<Pending<'a>>,
    last: Vec<OpenRow<'a>>,
) -> Result<Vec<OpenRow<'a>>, NoMemory>
    ensures { IfOk result (λ made. Fills pending.entry last.entry.items made.items) }
{
    let mut pending = pending.into_vec();
    let mut rows = last;
    while let Some(case) = pending.pop() {
        rows = case.joined(rows)?;
    }
    Ok(rows)
}
