//! The rows of two workloads, by their kinds.
ghost use Rattle.std.specs.Prelude.{◌≡◌, ◌<◌, ◌≤◌, ◌+◌, ◌*◌, false, length, IfOk, OnErr, OnOk};
ghost use Rattle.np_fold.specs.Prelude.{folding_of};
ghost use Rattle.np_kinds.specs.Between as pairs;
ghost use Rattle.np_kinds.specs.Prelude.{IsKindReach, IsWorkload};
ghost use Rattle.np_table.specs.RowCache.{IsCached};
ghost use Rattle.np_table.specs.Rows as spec;
ghost use Rattle.np_table.specs.steps.PairSides.{KnowsPair, conns_of_kinds};
ghost use Rattle.np_table.specs.Table.{estate_table};
ghost use Rattle.np_table.specs.ToCome.{due_for_kinds, most_rules};

use crate::pair_sets::{count_ends, set_of_kinds};
use crate::row_cache::RowCache;
use crate::rows::Row;
use crate::rows_of_pairs::{add_row, pair_key, rows_of_both};
use np_addr::Family;
use np_base::{NoMemory, Seq, Steps};
use np_fold::Workloads;
use np_kinds::{KindReach, Sides};
use np_model::Direction;
use std::alloc::Global;
use std::sync::ledger::Ledger;

/// Two workloads, by their numbers: the one that sends, and the one that receives.
#[derive(Clone, Copy)]
pub(crate) struct WorkloadPair {
    pub source: u32,
    pub destination: u32,
}

/// The rows of two workloads: copies with these ends where they are kept for the destination's kind, and else the rules of
/// the two kinds are asked, and what they give is kept for that kind. The rules give the same for each destination of a
/// kind, but for a workload of one pod with itself, which has no row and keeps nothing; so do kinds between which nothing may
/// pass.
pub(crate) fn rows_by_kind<L: Ledger>(
    alloc: Global,
    sides: &mut Sides<'_>,
    reach: &KindReach,
    pair: WorkloadPair,
    cache: &mut RowCache,
    steps: &mut Steps<L>,
) -> Result<Seq<Row>, NoMemory>
    requires reach { IsKindReach sides.old.lists reach.now }
    requires source { IsWorkload sides.old.lists pair.source }
    requires destination { IsWorkload sides.old.lists pair.destination }
    requires few { length cache.old ≤ (folding_of sides.old.lists).kind_count }
    requires kept { IsCached sides.old.lists (folding_of sides.old.lists) pair.source cache.old }
    ensures rows { IfOk result (λ made. made ≡ spec.pair_rows (estate_table sides.old.lists) pair.source pair.destination) }
    ensures lists { sides.new.lists ≡ sides.old.lists }
    ensures few { length cache.new ≤ (folding_of sides.old.lists).kind_count }
    ensures kept { IsCached sides.old.lists (folding_of sides.old.lists) pair.source cache.new }
    ensures least { steps.old ≤ steps.new }
    ensures counted { OnOk result (steps.new + due_for_kinds sides.old.lists (folding_of sides.old.lists) cache.new
        ≤ steps.old + due_for_kinds sides.old.lists (folding_of sides.old.lists) cache.old) }
    ensures most { OnErr result (steps.new ≤ steps.old + due_for_kinds sides.old.lists (folding_of sides.old.lists) cache.old) }
{
    let folded = sides.folded();
    let workloads = folded.workloads();
    if is_alone(workloads, pair.source, pair.destination) {
        return Ok(Seq::new(alloc));
    }
    if reach.is_silent(folded, pair.source, pair.destination) {
        return Ok(Seq::new(alloc));
    }
    let kind = workloads.kind_of(pair.destination);
    let key = pair_key(pair.source, pair.destination);
    if let Some(rows) = cache.rows(alloc, kind, &key)? {
        return Ok(rows);
    }
    let rows = rows_of_kinds(alloc, sides, pair, steps)?;
    cache.keep(alloc, kind, workloads.kinds(), rows.items())?;
    Ok(rows)
}

// The rows of two workloads by the rules of their kinds.
fn rows_of_kinds<L: Ledger>(
    alloc: Global,
    sides: &mut Sides<'_>,
    pair: WorkloadPair,
    steps: &mut Steps<L>,
) -> Result<Seq<Row>, NoMemory>
    requires source { IsWorkload sides.old.lists pair.source }
    requires destination { IsWorkload sides.old.lists pair.destination }
    requires apart { pairs.is_alone (folding_of sides.old.lists) pair.source pair.destination ≡ false }
    ensures rows { IfOk result (λ made. made ≡ spec.pair_rows (estate_table sides.old.lists) pair.source pair.destination) }
    ensures lists { sides.new.lists ≡ sides.old.lists }
    ensures least { steps.old ≤ steps.new }
    ensures most { steps.new ≤ steps.old + 4 * most_rules sides.old.lists (folding_of sides.old.lists) }
{
    sides.ask_pair(pair.source, pair.destination)?;
    let sender = sides.at(Direction::Egress, pair.source);
    let receiver = sides.at(Direction::Ingress, pair.destination);
    let families = sides.folded().estate().families();
    count_ends(sender, receiver, families, steps);
    rows_of_sides(alloc, sides, pair, families)
}

// The rows of two workloads by the rules of their kinds, which are known, in the families of the list.
#[tactic(auto, using(crate::proofs::KindSets::pair_stays_known))]
fn rows_of_sides(
    alloc: Global,
    sides: &mut Sides<'_>,
    pair: WorkloadPair,
    families: &[Family],
) -> Result<Seq<Row>, NoMemory>
    requires { KnowsPair sides.old pair.source pair.destination }
    ensures rows { IfOk result (λ made. made ≡ spec.rows_in families.now (spec.pair_key pair.source pair.destination)
        (conns_of_kinds sides.old.lists pair.source pair.destination)) }
    ensures lists { sides.new.lists ≡ sides.old.lists }
{
    let key = pair_key(pair.source, pair.destination);
    if families.len() != 1 {
        let four = set_of_kinds(sides, pair.source, pair.destination, Family::Four)?;
        let six = set_of_kinds(sides, pair.source, pair.destination, Family::Six)?;
        return rows_of_both(alloc, &key, four, six);
    }
    let conns = set_of_kinds(sides, pair.source, pair.destination, families[0])?;
    let mut rows = Seq::new(alloc);
    add_row(&mut rows, &key, None, conns)?;
    Ok(rows)
}

// Whether a workload of one pod meets itself.
fn is_alone(workloads: &Workloads, source: u32, destination: u32) -> bool
    requires { source < length workloads.now.workloads }
    ensures { result ≡ pairs.is_alone workloads.now source destination }
{
    source == destination && workloads.members(source).len() == 1
}
