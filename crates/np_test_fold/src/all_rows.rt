//! All rows of the table of the list.
ghost use Rattle.std.specs.Prelude.{◌≡◌, ◌≤◌, ◌+◌};
ghost use Rattle.np_test_fold.specs.Rules.{HasNoPolicies, due_for_all};

use np_base::{NoMemory, Steps};
use np_fold::Folded;
use np_table::Rows;
use std::alloc::Global;
use std::sync::ledger::Ledger;

// Of the table of the list, and one more.
const MOST_ROWS: u32 = 16;

/// How many rows there are. Contracts alone tell how many rules are looked at for them: none where no policy is listed, and at most
/// what is due for all rows.
pub fn counted_rows<L: Ledger>(
    alloc: Global,
    folded: &Folded,
    steps: &mut Steps<L>,
) -> Result<u32, NoMemory>
    ensures least { steps.old ≤ steps.new }
    ensures most { steps.new ≤ steps.old + due_for_all folded.now }
    ensures without_policies { HasNoPolicies folded.now → steps.new ≡ steps.old }
{
    count_each(alloc, folded, steps)
}

// The same, one after another.
fn count_each<L: Ledger>(
    alloc: Global,
    folded: &Folded,
    steps: &mut Steps<L>,
) -> Result<u32, NoMemory>
    ensures least { steps.old ≤ steps.new }
    ensures most { steps.new ≤ steps.old + due_for_all folded.now }
{
    let mut rows = Rows::new(alloc, folded);
    let mut count = 0;
    for call in 0..MOST_ROWS {
        if rows.next(steps)?.is_some() {
            count = call + 1;
        }
    }
    Ok(count)
}
