//! The rules of the pods that stand for the workloads of the list, and what passes by them.
ghost use Rattle.std.specs.Prelude.{◌≡◌};
ghost use Rattle.np_kinds.specs.Prelude.{number_of_workloads};

use crate::answers::expect_right;
use crate::rows::{PAIR, are_conns, are_ranges_right};
use np_addr::Family;
use np_base::NoMemory;
use np_fold::Folded;
use np_kinds::{KindReach, Sides, first_side};
use np_model::Direction;
use np_table::{KnownAddresses, SharedRows, address_rows_by_kind, pod_for_addresses, set_by_kinds};
use std::alloc::Global;
use std::process::Abort;

/// Whether the first workload has the rules of the pod `c`, which is the third of the list.
pub fn is_first_side_right(alloc: Global, folded: &Folded) -> Result<bool, NoMemory>
    requires { number_of_workloads folded.now ≡ 2 }
{
    let side = first_side(alloc, folded, Direction::Egress, 0)?;
    Ok(side.pod() == 2)
}

/// Whether it is not known that the first workload sends nothing to the second.
pub fn is_reach_right(alloc: Global, folded: &Folded) -> Result<bool, NoMemory>
    requires { number_of_workloads folded.now ≡ 2 }
{
    let reach = KindReach::of(alloc, folded)?;
    Ok(!reach.is_silent(folded, 0, 1))
}

/// Stops the test unless what is found by the rules of kinds is right.
pub fn expect_kinds(rt: &impl Abort, alloc: Global, folded: &Folded)
    requires { number_of_workloads folded.now ≡ 2 }
{
    let mut sides = Sides::new(alloc, folded);
    expect_right(rt, are_sides_right(&mut sides), "the rules of kinds");
    let set = is_set_right(alloc, &mut sides);
    expect_right(rt, set, "the set of a pair, by kinds");
    let kept = is_set_right(alloc, &mut sides);
    expect_right(rt, kept, "the same of sets that are kept");
    let pod = is_address_pod_right(&mut sides);
    expect_right(rt, pod, "the pod for the rows of addresses");
    let ranges = are_ranges_right_by_kind(alloc, &mut sides);
    expect_right(rt, ranges, "the rows of addresses, by kinds");
    let known = are_known_ranges_right(alloc, &mut sides);
    expect_right(rt, known, "the rows of addresses that are kept");
}

// The pod `c` stands for the one that sends, and `db-0`, the first of the list, for the one that receives.
fn are_sides_right(sides: &mut Sides<'_>) -> Result<bool, NoMemory>
    requires { number_of_workloads sides.old.lists ≡ 2 }
    ensures { sides.new.lists ≡ sides.old.lists }
{
    sides.ask(Direction::Egress, 0)?;
    sides.ask_pair(0, 1)?;
    let sender = sides.at(Direction::Egress, 0).pod();
    let receiver = sides.at(Direction::Ingress, 1).pod();
    Ok(sender == 2 && receiver == 0)
}

fn is_set_right(alloc: Global, sides: &mut Sides<'_>) -> Result<bool, NoMemory>
    requires { number_of_workloads sides.old.lists ≡ 2 }
    ensures { sides.new.lists ≡ sides.old.lists }
{
    let conns = set_by_kinds(sides, 0, 1, Family::Four)?;
    are_conns(alloc, &conns, PAIR)
}

// The pod `c` stands for the one that sends, and no other pod was found with the same side.
fn is_address_pod_right(sides: &mut Sides<'_>) -> Result<bool, NoMemory>
    requires { number_of_workloads sides.old.lists ≡ 2 }
    ensures { sides.new.lists ≡ sides.old.lists }
{
    let pod = pod_for_addresses(sides, 0, Direction::Egress)?;
    Ok(pod == 2)
}

fn are_ranges_right_by_kind(alloc: Global, sides: &mut Sides<'_>) -> Result<bool, NoMemory>
    requires { number_of_workloads sides.old.lists ≡ 2 }
    ensures { sides.new.lists ≡ sides.old.lists }
{
    let found = address_rows_by_kind(alloc, sides, 0, Direction::Egress)?;
    let rows = SharedRows::of(alloc, found)?.share()?;
    are_ranges_right(alloc, rows.items())
}

// They are found, and then had from what is kept.
fn are_known_ranges_right(alloc: Global, sides: &mut Sides<'_>) -> Result<bool, NoMemory>
    requires { number_of_workloads sides.old.lists ≡ 2 }
{
    let mut known = KnownAddresses::new(alloc, sides.folded());
    let found = known.rows_of(sides, 0, Direction::Egress)?;
    let kept = known.rows_of(sides, 0, Direction::Egress)?;
    Ok(are_ranges_right(alloc, found.items())? && are_ranges_right(alloc, kept.items())?)
}
