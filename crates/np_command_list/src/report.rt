//! `list`: the rows of the table that are asked for.
ghost use Rattle.std.specs.Prelude.{◌≡◌, ◌≤◌, ◌+◌, [], IfOk, IfSome, false, if◌then◌else◌};
ghost use Rattle.np_command.specs.Prelude.{Gives, Writes, list_steps, sunk};
ghost use Rattle.np_command_list.specs.Report as spec;
ghost use Rattle.np_fold.specs.Prelude.{folding_of};
ghost use Rattle.np_report.specs.Prelude.{keeps, list_text, names_of, row_text, rows_to_come};
ghost use Rattle.np_routes.specs.Prelude.{cluster_rows, cluster_table};
ghost use Rattle.np_kinds.specs.Prelude.{IsWorkload};

use np_args::Format;
use np_base::{NoMemory, Steps, Text};
use np_command::{Failure, WriteFault, workload_of};
use np_fold::Folded;
use np_io::{BufferedSink, Sink};
use np_report::{CsvForm, FocusSide, Form, JsonForm, Query, Report, TextForm, keeps, row_text};
use np_routes::ClusterRows;
use np_table::Row;
use std::alloc::Global;
use std::sync::ledger::Ledger;

/// What a table is asked for: who sends what comes through Ingresses, a workload or, where there is `None`, a controller
/// that is not known; and which rows.
#[derive(Clone, Copy)]
pub struct Listing {
    pub controller: Option<u32>,
    pub query: Query,
}

/// How rows are told: the form of the report, and how it tells ranges of addresses.
#[derive(Clone, Copy)]
pub struct Presentation {
    pub format: Format,
    pub report: Report,
}

/// What the names of a command line ask for. `UnknownEnd` comes exactly where no workload has a name, that of the controller
/// first.
#[tactic(auto, unfolding(crate::specs::Report::controller_of, crate::specs::Report::query_of))]
pub fn listing_of(
    folded: &Folded,
    controller: &Option<Text>,
    focus: &Option<Text>,
    side: FocusSide,
) -> Result<Listing, Failure>
    ensures asked { Gives result (spec.listing_of controller.now focus.now side folded.now) }
    ensures workload { IfOk result (λ listing. IfSome listing.controller (IsWorkload folded.now)) }
{
    let controller = match controller {
        Some(name) => Some(workload_of(folded, name)?),
        None => None,
    };
    let query = match focus {
        Some(name) => Query::Work {
            workload: workload_of(folded, name)?,
            side,
        },
        None => Query::All,
    };
    Ok(Listing { controller, query })
}

/// Writes the rows of the table that are asked for, in their order. Rows are gathered, so that many of them are one call of
/// the sink. The room for that is made before the first byte is written. The rules that it looks at are counted.
#[tactic(auto, using(crate::proofs::ListingLemmas::list_text_is))]
pub fn list<O: Sink, L: Ledger>(
    alloc: Global,
    folded: &Folded,
    listing: Listing,
    presentation: Presentation,
    out: &mut O,
    steps: &mut Steps<L>,
) -> Result<(), WriteFault>
    requires { IfSome listing.controller (IsWorkload folded.now) }
    ensures written { Writes (sunk O.taken O.faults out.old out.new)
        (list_text (cluster_table folded.now listing.controller) listing.query presentation.format presentation.report)
        result }
    ensures least { steps.old ≤ steps.new }
    ensures most { steps.new ≤ steps.old + list_steps folded.now }
{
    let report = presentation.report;
    match presentation.format {
        Format::Plain => write_rows::<TextForm, O, L>(alloc, folded, listing, report, out, steps),
        Format::Csv => write_rows::<CsvForm, O, L>(alloc, folded, listing, report, out, steps),
        Format::Json => write_rows::<JsonForm, O, L>(alloc, folded, listing, report, out, steps),
    }
}

// Writes the rows of the table that are asked for in a form.
#[tactic(auto, using(np_command::proofs::StepLemmas::due_all))]
fn write_rows<F: Form, O: Sink, L: Ledger>(
    alloc: Global,
    folded: &Folded,
    listing: Listing,
    report: Report,
    out: &mut O,
    steps: &mut Steps<L>,
) -> Result<(), WriteFault>
    requires { IfSome listing.controller (IsWorkload folded.now) }
    ensures written { Writes (sunk O.taken O.faults out.old out.new)
        (rows_to_come F.bytes (names_of (folding_of folded.now)) listing.query report false
        (cluster_rows (cluster_table folded.now listing.controller)))
        result }
    ensures least { steps.old ≤ steps.new }
    ensures most { steps.new ≤ steps.old + list_steps folded.now }
{
    let mut rows = ClusterRows::of(alloc, folded, listing.controller)?;
    let mut gathered = BufferedSink::new(alloc)?;
    let mut has_rows = false;
    while let Some(row) = rows.next(steps)? {
        let line = line_of::<F>(alloc, folded, &listing.query, report, has_rows, &row)?;
        gathered.put(out, &line)?;
        has_rows |= keeps(&listing.query, &row.key);
    }
    gathered.put(out, F::end(has_rows).as_bytes())?;
    gathered.finish(out)?;
    Ok(())
}

// The bytes of a row, and none where it is not asked for.
fn line_of<F: Form>(
    alloc: Global,
    folded: &Folded,
    query: &Query,
    report: Report,
    has_rows: bool,
    row: &Row,
) -> Result<Vec<u8>, NoMemory>
    ensures { IfOk result (λ line. line.items ≡ (if keeps query.now row.now.key
        then F.bytes.row has_rows (row_text (names_of (folding_of folded.now)) report row.now) else [])) }
{
    if !keeps(query, &row.key) {
        return Ok(Vec::new(alloc));
    }
    let text = row_text(alloc, folded.workloads(), row, report)?;
    F::line(alloc, has_rows, &text)
}
