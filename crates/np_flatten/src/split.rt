//! The first pair of workloads for which the families of the list differ.
ghost use Rattle.std.specs.Prelude.{◌≡◌, ◌<◌, IfOk};
ghost use Rattle.np_flatten.specs.Prelude.{first_pair, is_split};
ghost use Rattle.np_flatten.specs.steps.SplitRows as spec;
ghost use Rattle.np_kinds.specs.Prelude.{number_of_workloads};

use np_base::{NoMemory, Steps};
use np_fold::Folded;
use np_table::{Row, RowEnd, Rows};
use std::alloc::Global;
use std::marker::Brand;
use std::sync::ledger::{Blank, Ledger};

/// The first two workloads, by the source and then by the destination, for which what passes is defined and differs between
/// the families of the list. It is read off the rows of the table: of these two stands a row for each family. A list of one family
/// has none, and its table is not asked.
pub(crate) fn first_split(alloc: Global, folded: &Folded) -> Result<Option<(u32, u32)>, NoMemory>
    ensures { IfOk result (λ found. found ≡ first_pair (is_split folded.now) (number_of_workloads folded.now)) }
{
    if folded.estate().families().len() < 2 {
        return Ok(None);
    }
    let blank = Blank::new(1);
    split_in_rows::<Brand>(alloc, folded, blank)
}

// The same off the rows. They count the rules that they look at, on the ledger of this blank; nobody asks here how many.
fn split_in_rows<L: Ledger>(
    alloc: Global,
    folded: &Folded,
    blank: Blank,
) -> Result<Option<(u32, u32)>, NoMemory>
    requires name { blank.name ≡ L.name }
    requires parts { blank.parts ≡ L.parts }
    requires some { 0 < blank.parts }
    ensures { IfOk result (λ found. found ≡ first_pair (is_split folded.now) (number_of_workloads folded.now)) }
{
    let mut steps: Steps<L> = Steps::new(blank);
    let mut rows = Rows::new(alloc, folded);
    while let Some(row) = rows.next(&mut steps)? {
        let found = split_of(&row);
        if found.is_some() {
            return Ok(found);
        }
    }
    Ok(None)
}

// The two workloads of a row that speaks of one family of two.
fn split_of(row: &Row) -> Option<(u32, u32)>
    ensures { result ≡ spec.split_of row.now }
{
    match (row.family, row.key.source, row.key.destination) {
        (Some(_), RowEnd::Work(source), RowEnd::Work(destination)) => Some((source, destination)),
        _ => None,
    }
}
