//! The rows of two workloads.
ghost use Rattle.std.specs.Prelude.{◌≡◌, ◌++◌, None, IfOk, OnOk};
ghost use Rattle.np_table.specs.PairRules as rules;
ghost use Rattle.np_table.specs.Prelude.{estate_table};
ghost use Rattle.np_conns.specs.Prelude.{conns_of};
ghost use Rattle.np_table.specs.Rows as spec;
ghost use Rattle.np_kinds.specs.Prelude.{IsWorkload, between_pods};

use crate::pair_sets::{rules_of_pair, set_between};
use crate::rows::{Row, RowEnd, RowKey};
use np_addr::Family;
use np_base::{Cells, NoMemory, Seq};
use np_conns::ConnSet;
use np_fold::Folded;
use np_rules::PodRules;
use std::alloc::Global;

/// What a workload may send to another, or to itself, as rows: one without a family where the same protocols and ports pass
/// in all families of the list, and else one for each family, IPv4 first. There is no row where nothing passes, and none of
/// a workload of one pod with itself.
pub fn pair_rows(
    alloc: Global,
    folded: &Folded,
    source: u32,
    destination: u32,
) -> Result<Seq<Row>, NoMemory>
    requires source { IsWorkload folded.now source }
    requires destination { IsWorkload folded.now destination }
    ensures { IfOk result (λ made. made ≡ spec.pair_rows (estate_table folded.now) source destination) }
{
    let Some(ends) = rules_of_pair(alloc, folded, source, destination)? else {
        return Ok(Seq::new(alloc));
    };
    let key = pair_key(source, destination);
    let families = folded.estate().families();
    rows_between(alloc, families, &key, &ends.sender, &ends.receiver)
}

/// The rows of these ends that say what passes between two pods.
pub(crate) fn rows_between(
    alloc: Global,
    families: &[Family],
    key: &RowKey,
    sender: &PodRules<'_>,
    receiver: &PodRules<'_>,
) -> Result<Seq<Row>, NoMemory>
    requires { rules.AreEnds sender.now receiver.now }
    ensures { IfOk result (λ made. made ≡ spec.rows_in families.now key.now
        (λ family. conns_of (between_pods sender.now.lists sender.now.pod receiver.now.pod family))) }
{
    if families.len() != 1 {
        let four = set_between(alloc, sender, receiver, Family::Four)?;
        let six = set_between(alloc, sender, receiver, Family::Six)?;
        return rows_of_both(alloc, key, four, six);
    }
    let conns = set_between(alloc, sender, receiver, families[0])?;
    let mut rows = Seq::new(alloc);
    add_row(&mut rows, key, None, conns)?;
    Ok(rows)
}

/// The ends of the rows of two workloads.
pub(crate) fn pair_key(source: u32, destination: u32) -> RowKey
    ensures { result ≡ spec.pair_key source destination }
{
    RowKey {
        source: RowEnd::Work(source),
        destination: RowEnd::Work(destination),
    }
}

/// One row where the connections of both families are the same, else a row for each.
pub(crate) fn rows_of_both(
    alloc: Global,
    key: &RowKey,
    four: ConnSet,
    six: ConnSet,
) -> Result<Seq<Row>, NoMemory>
    ensures { IfOk result (λ made. made ≡ spec.rows_of_both key.now four six) }
{
    let mut rows = Seq::new(alloc);
    if four.same(&six) {
        add_row(&mut rows, key, None, four)?;
        return Ok(rows);
    }
    add_row(&mut rows, key, Some(Family::Four), four)?;
    add_row(&mut rows, key, Some(Family::Six), six)?;
    Ok(rows)
}

/// Adds the row of some connections, where there are any.
pub(crate) fn add_row(
    rows: &mut Seq<Row>,
    key: &RowKey,
    family: Option<Family>,
    conns: ConnSet,
) -> Result<(), NoMemory>
    ensures { OnOk result (rows.new ≡ rows.old ++ spec.row_if key.now family conns) }
{
    if conns.is_empty() {
        return Ok(());
    }
    rows.push(Row {
        key: *key,
        family,
        conns,
    })
}
