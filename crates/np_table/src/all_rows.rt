//! The rows of the table, one after another.
ghost use Rattle.std.specs.Prelude.{◌≡◌, ◌≤◌, ◌<◌, ◌+◌, ◌*◌, ◌/◌, ◌^◌, ◌∷◌, [], IfOk, OnErr, OnOk, MatchOption, length, map, reverse};
ghost use Rattle.np_fold.specs.Prelude.{folding_of};
ghost use Rattle.np_model.specs.declared.direction.Direction.{Direction};
ghost use Rattle.np_kinds.specs.Prelude.{IsKindReach, number_of_workloads};
ghost use Rattle.np_table.specs.RowCache.{IsCached};
ghost use Rattle.np_table.specs.Rows as table;
ghost use Rattle.np_table.specs.Table.{estate_table};
ghost use Rattle.np_table.specs.ToCome as spec;

use crate::known_addresses::KnownAddresses;
use crate::row_cache::RowCache;
use crate::rows::{AddressRow, Row, RowEnd, RowKey};
use crate::rows_by_kind::{WorkloadPair, rows_by_kind};
use np_base::{Cells, NoMemory, Seq, Steps};
use np_fold::{Folded, Workloads};
use np_kinds::{KindReach, Sides};
use np_model::Direction;
use std::alloc::Global;
use std::marker::Model;
use std::sync::ledger::Ledger;

/// The rows of the table that are still to come: those of all pairs of workloads, by source and then by destination, and
/// behind them, for each workload, those of all addresses, ingress and then egress. They are made pair by pair, and never
/// all of them are held. Which policies select a pod is asked once for each kind of workloads, when its rules are first
/// asked for. The rules are asked once for each source and each kind of destinations, and what they give is kept until the
/// next source. Contracts see the rows, and as `due` an upper bound of the rules that are still to be looked at.
pub struct Rows<'a> {
    alloc: Global,
    sides: Sides<'a>,
    // What kinds let through, found at the first call of `next`.
    reach: KindReach,
    // The place of the next rows to be made, and the one behind the last.
    place: u64,
    end: u64,
    // What is known of the rows from the source at that place.
    cache: RowCache,
    // What is known of the rows of addresses.
    known: KnownAddresses<'a>,
    // Rows that were made and not given, the last one first.
    ready: Vec<Row>,
}

// Written out, so that letting one go is one call.
impl<'a> Drop for Rows<'a> {
    fn drop(self) {
        let Rows {
            alloc: _alloc,
            sides: _sides,
            reach: _reach,
            place: _place,
            end: _end,
            cache: _cache,
            known: _known,
            ready: _ready,
        } = self;
    }
}

impl<'a> Model for Rows<'a> {
    ghost use Rattle.std.specs.Prelude.{◌≡◌, ◌++◌, reverse};
    ghost use Rattle.np_fold.specs.Workloads.{folding_of};
    ghost use Rattle.np_kinds.specs.Kinds.{IsKindReach};
    ghost use Rattle.np_table.specs.Table.{estate_table};
    ghost use Rattle.np_table.specs.ToCome.{IsUnderWay, RowsToCome, due_from, rows_from};

    ghost Value = { RowsToCome };

    ghost view = { λ r. record {
      rows = reverse r.ready.items ++ rows_from (estate_table r.sides.lists) r.place;
      due = due_from r.sides.lists (folding_of r.sides.lists) r.place r.cache;
    } };

    ghost invariant = { λ r. IsUnderWay r.sides.lists r.place r.end r.cache × IsKindReach r.sides.lists r.reach
        × (r.known ≡ r.sides.lists) };
}

impl<'a> Rows<'a> {
    /// All rows of the table of an estate. It takes no memory.
    pub fn new(alloc: Global, folded: &'a Folded) -> Rows<'a>
        ensures rows { result.rows ≡ table.all_rows (estate_table folded.now) }
        ensures due { let folding = folding_of folded.now in
            result.due ≡ (4 * length folding.workloads * folding.kind_count + 2 * length folding.workloads)
            * spec.most_rules folded.now folding }
    {
        let end = place_count(folded.workloads());
        Rows {
            alloc,
            sides: Sides::new(alloc, folded),
            reach: KindReach::nothing(alloc),
            place: 0,
            end,
            cache: RowCache::nothing(alloc),
            known: KnownAddresses::new(alloc, folded),
            ready: Vec::new(alloc),
        }
    }

    /// The first of the rows that are still to come, and takes it off. `None` comes exactly where there is none. On
    /// `NoMemory` the same rows are still to come.
    pub fn next<L: Ledger>(&mut self, steps: &mut Steps<L>) -> Result<Option<Row>, NoMemory>
        ensures given { IfOk result (λ given. MatchOption given (self.old.rows ≡ []) (λ row. self.old.rows ≡ row ∷ self.new.rows)) }
        ensures err { OnErr result (self.new.rows ≡ self.old.rows) }
        ensures counted { OnOk result (steps.new + self.new.due ≤ steps.old + self.old.due) }
        ensures most { OnErr result (steps.new ≤ steps.old + self.old.due) }
        ensures least { steps.old ≤ steps.new }
    {
        let folded = self.sides.folded();
        ask_reach(self.alloc, folded, self.place, &mut self.reach)?;
        while self.ready.is_empty() {
            if self.place == self.end {
                return Ok(None);
            }
            self.place = pass_over(folded, &self.reach, self.place);
            let rows = rows_at(
                &mut self.sides,
                &self.reach,
                self.place,
                &mut self.cache,
                &mut self.known,
                steps,
            )?;
            self.ready = in_reverse(rows);
            self.place += 1;
        }
        Ok(self.ready.pop())
    }
}

// Finds what kinds let through before the rows at the first place are made.
fn ask_reach(
    alloc: Global,
    folded: &Folded,
    place: u64,
    reach: &mut KindReach,
) -> Result<(), NoMemory>
    requires { IsKindReach folded.now reach.old }
    ensures { IsKindReach folded.now reach.new }
{
    if place == 0 {
        *reach = KindReach::of(alloc, folded)?;
    }
    Ok(())
}

// Rows with the last one first.
fn in_reverse(rows: Seq<Row>) -> Vec<Row>
    ensures { result.items ≡ reverse rows }
{
    let mut made = rows.into_vec();
    made.reverse();
    made
}

// How many places there are.
fn place_count(workloads: &Workloads) -> u64
    ensures value { result ≡ spec.place_count (length workloads.now.workloads) }
    ensures fits { result < 2 ^ 64 }
{
    let count = u64::from(workloads.count());
    count * count + 2 * count
}

// Passes over the destinations from a place on to which nothing passes, of the same source, and at most up to the last.
fn pass_over(folded: &Folded, reach: &KindReach, place: u64) -> u64
    requires reach { IsKindReach folded.now reach.now }
    requires place { place < spec.place_count (number_of_workloads folded.now) }
    requires fits { spec.place_count (number_of_workloads folded.now) < 2 ^ 64 }
    ensures rows { spec.rows_from (estate_table folded.now) result ≡ spec.rows_from (estate_table folded.now) place }
    ensures source { spec.IsOfSameSource (number_of_workloads folded.now) place result }
{
    let count = u64::from(folded.workloads().count());
    if place >= count * count {
        return place;
    }
    let source = place / count;
    let mut destination = place % count;
    while destination + 1 < count {
        if reach.is_silent(folded, source as u32, destination as u32) {
            destination += 1;
        } else {
            break;
        }
    }
    source * count + destination
}

// The rows at a place. What is kept is made ready for the next place.
fn rows_at<L: Ledger>(
    sides: &mut Sides<'_>,
    reach: &KindReach,
    place: u64,
    cache: &mut RowCache,
    known: &mut KnownAddresses<'_>,
    steps: &mut Steps<L>,
) -> Result<Seq<Row>, NoMemory>
    requires reach { IsKindReach sides.old.lists reach.now }
    requires place { place < spec.place_count (number_of_workloads sides.old.lists) }
    requires few { length cache.old ≤ (folding_of sides.old.lists).kind_count }
    requires kept { IsCached sides.old.lists (folding_of sides.old.lists) (place / number_of_workloads sides.old.lists) cache.old }
    requires known { known.old ≡ sides.old.lists }
    ensures rows { IfOk result (λ made. made ≡ spec.rows_at (estate_table sides.old.lists) place) }
    ensures lists { sides.new.lists ≡ sides.old.lists }
    ensures known { known.new ≡ known.old }
    ensures few { length cache.new ≤ (folding_of sides.old.lists).kind_count }
    ensures kept { let lists = sides.old.lists in
        OnOk result (IsCached lists (folding_of lists) ((place + 1) / number_of_workloads lists) cache.new) }
    ensures kept_on_err { let lists = sides.old.lists in
        OnErr result (IsCached lists (folding_of lists) (place / number_of_workloads lists) cache.new) }
    ensures counted { OnOk result (steps.new + spec.due_from sides.old.lists (folding_of sides.old.lists) (place + 1) cache.new
        ≤ steps.old + spec.due_from sides.old.lists (folding_of sides.old.lists) place cache.old) }
    ensures most { OnErr result (steps.new ≤ steps.old + spec.due_from sides.old.lists (folding_of sides.old.lists) place cache.old) }
    ensures least { steps.old ≤ steps.new }
{
    let count = u64::from(sides.folded().workloads().count());
    let pairs = count * count;
    if place >= pairs {
        return address_rows_at(sides, place - pairs, known, steps);
    }
    let alloc = known.alloc();
    let pair = WorkloadPair {
        source: (place / count) as u32,
        destination: (place % count) as u32,
    };
    let rows = rows_by_kind(alloc, sides, reach, pair, cache, steps)?;
    if place % count + 1 == count {
        *cache = RowCache::nothing(alloc);
    }
    Ok(rows)
}

// The rows of addresses at a place behind the pairs.
fn address_rows_at<L: Ledger>(
    sides: &mut Sides<'_>,
    place: u64,
    known: &mut KnownAddresses<'_>,
    steps: &mut Steps<L>,
) -> Result<Seq<Row>, NoMemory>
    requires few { number_of_workloads sides.old.lists < 2 ^ 32 }
    requires place { place < 2 * number_of_workloads sides.old.lists }
    requires known { known.old ≡ sides.old.lists }
    ensures rows { IfOk result (λ made. made ≡ spec.address_rows_at (estate_table sides.old.lists) place) }
    ensures lists { sides.new.lists ≡ sides.old.lists }
    ensures known { known.new ≡ known.old }
    ensures most { steps.new ≤ steps.old + spec.most_rules sides.old.lists (folding_of sides.old.lists) }
    ensures least { steps.old ≤ steps.new }
{
    let workload = (place / 2) as u32;
    let direction = direction_at(place);
    sides.ask(direction, workload)?;
    let near = sides.at(direction, workload);
    near.count(steps);
    let rows = known.rows_of(sides, workload, direction)?;
    with_keys(known.alloc(), rows.items(), workload, direction)
}

// The direction of the addresses at a place.
fn direction_at(place: u64) -> Direction
    ensures { result ≡ spec.direction_at place }
{
    if place % 2 == 0 {
        Direction::Ingress
    } else {
        Direction::Egress
    }
}

// The rows of addresses with their two ends.
fn with_keys(
    alloc: Global,
    rows: &[AddressRow],
    workload: u32,
    direction: Direction,
) -> Result<Seq<Row>, NoMemory>
    ensures { IfOk result (λ made. made ≡ map (table.row_of workload direction) rows.now) }
{
    let mut made = Seq::new(alloc);
    for row in rows {
        made.push(row_of(row, workload, direction)?)?;
    }
    Ok(made)
}

// A row of addresses with its two ends.
fn row_of(row: &AddressRow, workload: u32, direction: Direction) -> Result<Row, NoMemory>
    ensures { IfOk result (λ made. made ≡ table.row_of workload direction row.now) }
{
    Ok(Row {
        key: key_of(workload, direction, RowEnd::Span(row.span)),
        family: None,
        conns: row.conns.copy()?,
    })
}

// The ends of a row of addresses: in the direction of ingress the addresses are the source.
fn key_of(workload: u32, direction: Direction, addresses: RowEnd) -> RowKey
    ensures { result ≡ table.key_of workload direction addresses }
{
    let workload = RowEnd::Work(workload);
    match direction {
        Direction::Ingress => RowKey {
            source: addresses,
            destination: workload,
        },
        Direction::Egress => RowKey {
            source: workload,
            destination: addresses,
        },
    }
}
