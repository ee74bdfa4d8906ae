//! All that is asked of the list.
ghost use Rattle.std.specs.Prelude.{◌≡◌, ◌<◌};
ghost use Rattle.np_kinds.specs.Prelude.{number_of_workloads};

use crate::all_rows::counted_rows;
use crate::list::folded_list;
use crate::rows::{are_address_rows_right, are_pair_rows_right, is_pair_set_right};
use crate::sides::{expect_kinds, is_first_side_right, is_reach_right};
use crate::traits::expect_traits;
use crate::workloads::are_workloads_right;
use np_base::{NoMemory, Steps};
use np_fold::Folded;
use std::alloc::Global;
use std::marker::Brand;
use std::process::Abort;
use std::sync::ledger::{Blank, Ledger};

/// Stops the test unless this was found right. It stands in place of `?`, so that its callers have no early exits.
pub fn expect_right(rt: &impl Abort, found: Result<bool, NoMemory>, name: &str) {
    let is_right = found.expect(rt, name);
    assert!(rt; is_right, "{name}");
}

// Stops the test unless there are as many rows as there should be, with a counter on the ledger of this blank.
fn expect_row_count<L: Ledger>(rt: &impl Abort, alloc: Global, folded: &Folded, blank: Blank)
    requires name { blank.name ≡ L.name }
    requires parts { blank.parts ≡ L.parts }
    requires some { 0 < blank.parts }
{
    let mut steps: Steps<L> = Steps::new(blank);
    let count = counted_rows(alloc, folded, &mut steps).expect(rt, "rows");
    assert!(rt; count == 15, "the number of rows");
}

// What passes between the two workloads, and between them and addresses.
fn expect_rows(rt: &impl Abort, alloc: Global, folded: &Folded)
    requires { number_of_workloads folded.now ≡ 2 }
{
    let set = is_pair_set_right(alloc, folded);
    expect_right(rt, set, "the set of a pair");
    let rows = are_pair_rows_right(alloc, folded);
    expect_right(rt, rows, "the rows of a pair");
    let ranges = are_address_rows_right(alloc, folded);
    expect_right(rt, ranges, "the rows of addresses");
    expect_kinds(rt, alloc, folded);
}

// What is asked of the workloads themselves.
fn expect_folded(rt: &impl Abort, alloc: Global, folded: &Folded)
    requires { number_of_workloads folded.now ≡ 2 }
{
    expect_traits(rt, alloc, folded.estate());
    assert!(rt; are_workloads_right(folded.workloads()), "workloads");
    expect_right(rt, is_first_side_right(alloc, folded), "a side");
    expect_right(rt, is_reach_right(alloc, folded), "what kinds let through");
}

#[test]
fn answers_of_folded(rt: HostRuntime) {
    let folded = folded_list(&rt, rt.alloc());
    assert!(rt; folded.workloads().count() == 2);
    expect_folded(&rt, rt.alloc(), &folded);
    expect_rows(&rt, rt.alloc(), &folded);
    expect_row_count::<Brand>(&rt, rt.alloc(), &folded, Blank::new(1));
}
