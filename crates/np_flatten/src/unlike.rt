//! The first pair of workloads of one group that differ.
ghost use Rattle.std.specs.Prelude.{◌≡◌, ◌<◌, IfOk, length, map, slice_index};
ghost use Rattle.np_classes.specs.Classes.{places};
ghost use Rattle.np_flatten.specs.Faults as faults;
ghost use Rattle.np_flatten.specs.Prelude.{comes_before, first_by, first_pair, group_firsts, group_of, with_number};
ghost use Rattle.np_kinds.specs.Prelude.{IsWorkload, number_of_workloads};

use crate::differ::differ;
use crate::passing::Passing;
use np_base::NoMemory;
use np_classes::Classes;

/// The first two workloads of one group that differ, by the lesser number and then by the greater. The first workload of each
/// kind is held against the first of its group: workloads of one kind never differ, and where none differs from the first of
/// its group no two of a group do.
pub(crate) fn first_unlike(
    passing: &mut Passing<'_>,
    groups: &Classes,
) -> Result<Option<(u32, u32)>, NoMemory>
    requires firsts { groups.now.firsts ≡ group_firsts passing.old }
    requires numbers { groups.now.numbers ≡ map (group_of passing.old) (places (number_of_workloads passing.old)) }
    ensures found { IfOk result (λ found. found ≡ first_pair (faults.is_unlike passing.old) (number_of_workloads passing.old)) }
    ensures same { passing.new ≡ passing.old }
{
    let mut found = None;
    for workload in passing.folded().workloads().first_of_kinds() {
        let first = first_of_group(groups, *workload);
        found = least_with(passing, first, *workload, found)?;
    }
    Ok(found)
}

// The least pair, where these two are looked at as well: the first of a group and a workload of it.
fn least_with(
    passing: &mut Passing<'_>,
    first: u32,
    workload: u32,
    found: Option<(u32, u32)>,
) -> Result<Option<(u32, u32)>, NoMemory>
    requires first { IsWorkload passing.old first }
    requires workload { IsWorkload passing.old workload }
    ensures least { IfOk result (λ least. least ≡ with_number (faults.differ passing.old) first workload found) }
    ensures same { passing.new ≡ passing.old }
{
    if !comes_before(first, workload, found) {
        return Ok(found);
    }
    if differ(passing, first, workload)? {
        return Ok(Some((first, workload)));
    }
    Ok(found)
}

// The first workload of the group of one.
fn first_of_group(groups: &Classes, workload: u32) -> u32
    requires number { workload < length groups.now.numbers }
    requires within { slice_index groups.now.numbers workload < length groups.now.firsts }
    ensures { result ≡ first_by groups.now.firsts groups.now.numbers workload }
{
    let group = groups.numbers.items()[workload as usize];
    groups.firsts.items()[group as usize]
}

// Whether two workloads are two, and stand before those that were found.
fn comes_before(first: u32, workload: u32, found: Option<(u32, u32)>) -> bool
    ensures { result ≡ comes_before first workload found }
{
    first != workload && found.is_none_or(|(a, b)| first < a || (first == a && workload < b))
}
