//! The rows of the table of a cluster, one after another.
ghost use Rattle.std.specs.Prelude.{◌≡◌, ◌≤◌, ◌+◌, ◌*◌, ◌∷◌, ◌++◌, [], None, IfOk, IfSome, MatchOption, OnErr, OnOk, length};
ghost use Rattle.std.specs.Option.{option_to_list};
ghost use Rattle.np_fold.specs.Prelude.{folding_of};
ghost use Rattle.np_routes.specs.ClusterTable as spec;
ghost use Rattle.np_routes.specs.Controllers.{ingress_steps};
ghost use Rattle.np_routes.specs.steps.IngressRows.{due_left, rows_left};
ghost use Rattle.np_kinds.specs.Prelude.{IsWorkload};
ghost use Rattle.np_table.specs.Prelude.{most_rules};

use crate::routes::Routes;
use np_base::{Cells, NoMemory, Steps};
use np_fold::Folded;
use np_table::{Row, RowEnd, RowKey, Rows};
use std::alloc::Global;
use std::marker::Model;
use std::sync::ledger::Ledger;

/// The rows of a cluster that are still to come: those of all pairs of workloads and of all addresses, as `Rows` gives
/// them, and behind them for each workload that is reached through ingresses the row from the controller to it. Never all
/// of them are held. Contracts see the rows, and as `due` an upper bound of the rules that are still to be looked at.
pub struct ClusterRows<'a> {
    alloc: Global,
    // Those of pairs and addresses, until they have ended.
    rows: Option<Rows<'a>>,
    routes: Routes<'a>,
    // The next workload that is asked, and how many there are.
    workload: u32,
    count: u32,
}

// Written out, so that letting one go is one call.
impl<'a> Drop for ClusterRows<'a> {
    fn drop(self) {
        let ClusterRows {
            alloc: _alloc,
            rows: _rows,
            routes: _routes,
            workload: _workload,
            count: _count,
        } = self;
    }
}

impl<'a> Model for ClusterRows<'a> {
    ghost use Rattle.std.specs.Prelude.{◌++◌, ◌+◌};
    ghost use Rattle.np_routes.specs.ClusterTable.{ClusterToCome, cluster_table};

    ghost Value = { ClusterToCome };

    ghost use Rattle.np_routes.specs.steps.IngressRows.{IsAtWorkload, due_left, ingress_due, ingress_rows_from, rows_left};

    ghost view = { λ r. record {
      rows = rows_left r.rows ++ ingress_rows_from (cluster_table r.routes.lists r.routes.controller) r.workload;
      due = due_left r.rows + ingress_due r.routes.lists r.workload;
    } };

    ghost invariant = { λ r. IsAtWorkload r.routes r.workload r.count };
}

impl<'a> ClusterRows<'a> {
    /// All rows of a cluster, with a controller of ingresses that is a workload or one that is not known.
    pub fn of(
        alloc: Global,
        folded: &'a Folded,
        controller: Option<u32>,
    ) -> Result<ClusterRows<'a>, NoMemory>
        requires { IfSome controller (IsWorkload folded.now) }
        ensures rows { IfOk result (λ made. made.rows ≡ spec.cluster_rows (spec.cluster_table folded.now controller)) }
        ensures due { let folding = folding_of folded.now in
            IfOk result (λ made. made.due
            ≡ (4 * length folding.workloads * folding.kind_count + 6 * length folding.workloads)
            * most_rules folded.now folding) }
    {
        let routes = Routes::of(alloc, folded, controller)?;
        let rows = Rows::new(alloc, folded);
        let count = folded.workloads().count();
        Ok(ClusterRows {
            alloc,
            rows: Some(rows),
            routes,
            workload: 0,
            count,
        })
    }

    /// The first of the rows that are still to come, and takes it off. `None` comes exactly where there is none. On
    /// `NoMemory` the same rows are still to come.
    pub fn next<L: Ledger>(&mut self, steps: &mut Steps<L>) -> Result<Option<Row>, NoMemory>
        ensures given { IfOk result (λ given. MatchOption given (self.old.rows ≡ []) (λ row. self.old.rows ≡ row ∷ self.new.rows)) }
        ensures err { OnErr result (self.new.rows ≡ self.old.rows) }
        ensures counted { OnOk result (steps.new + self.new.due ≤ steps.old + self.old.due) }
        ensures most { OnErr result (steps.new ≤ steps.old + self.old.due) }
        ensures least { steps.old ≤ steps.new }
    {
        if let Some(row) = next_of_table(&mut self.rows, steps)? {
            return Ok(Some(row));
        }
        while self.workload < self.count {
            let row = ingress_row(self.alloc, &self.routes, self.workload, steps)?;
            self.workload += 1;
            if row.is_some() {
                return Ok(row);
            }
        }
        Ok(None)
    }
}

// The first of the rows of pairs and addresses that are still to come, if there is one, and takes it off.
fn next_of_table<L: Ledger>(
    rows: &mut Option<Rows<'_>>,
    steps: &mut Steps<L>,
) -> Result<Option<Row>, NoMemory>
    ensures given { IfOk result (λ given. rows_left rows.old ≡ option_to_list given ++ rows_left rows.new) }
    ensures none { IfOk result (λ given. given ≡ None → rows_left rows.new ≡ []) }
    ensures err { OnErr result (rows_left rows.new ≡ rows_left rows.old) }
    ensures counted { OnOk result (steps.new + due_left rows.new ≤ steps.old + due_left rows.old) }
    ensures most { OnErr result (steps.new ≤ steps.old + due_left rows.old) }
    ensures least { steps.old ≤ steps.new }
{
    let Some(table) = rows else {
        return Ok(None);
    };
    let row = table.next(steps)?;
    if row.is_none() {
        *rows = None;
    }
    Ok(row)
}

// The row of a workload that is reached through ingresses.
fn ingress_row<L: Ledger>(
    alloc: Global,
    routes: &Routes<'_>,
    workload: u32,
    steps: &mut Steps<L>,
) -> Result<Option<Row>, NoMemory>
    requires { IsWorkload routes.now.lists workload }
    ensures row { IfOk result (λ made. option_to_list made
        ≡ spec.ingress_row (spec.cluster_table routes.now.lists routes.now.controller) workload) }
    ensures least { steps.old ≤ steps.new }
    ensures most { steps.new ≤ steps.old + ingress_steps routes.now.lists routes.now.controller workload }
{
    let conns = routes.ingress_set(alloc, workload, steps)?;
    if conns.is_empty() {
        return Ok(None);
    }
    let key = RowKey {
        source: RowEnd::Controller,
        destination: RowEnd::Work(workload),
    };
    Ok(Some(Row {
        key,
        family: None,
        conns,
    }))
}
