//! `sample`: how many rows the table of a sample has.
ghost use Rattle.std.specs.Prelude.{◌≡◌, ◌≤◌, ◌+◌, IfOk, Ok, string_bytes};
ghost use Rattle.np_command.specs.Prelude.{Wrote, list_steps, sunk};
ghost use Rattle.np_command_sample.specs.Report as spec;

use np_base::{NoMemory, Steps};
use np_command::Failure;
use np_fold::Folded;
use np_io::{Sink, write_whole};
use np_report::Tally;
use np_routes::ClusterRows;
use std::alloc::Global;
use std::sync::ledger::Ledger;

/// Writes how many workloads there are, and how many rows of each sort the table of them has, with a controller that is not
/// known. The rows are those that `list` writes; they are made and counted one after another. The rules that it looks at are
/// counted.
#[tactic(auto, unfolding(crate::specs::Report::sample_summary))]
pub fn count_rows<O: Sink, L: Ledger>(
    alloc: Global,
    folded: &Folded,
    out: &mut O,
    steps: &mut Steps<L>,
) -> Result<(), Failure>
    requires few { spec.HasFewRows folded.now }
    ensures wrote { Wrote (sunk O.taken O.faults out.old out.new) (Ok (spec.sample_summary folded.now)) result }
    ensures least { steps.old ≤ steps.new }
    ensures most { steps.new ≤ steps.old + list_steps folded.now }
{
    let tally = tally_of(alloc, folded, steps)?;
    let lines = summary(alloc, folded.workloads().count(), &tally)?;
    write_whole(out, lines.as_bytes())?;
    Ok(())
}

// How many rows of each sort the table has.
#[tactic(auto, using(np_command::proofs::StepLemmas::due_all))]
fn tally_of<L: Ledger>(
    alloc: Global,
    folded: &Folded,
    steps: &mut Steps<L>,
) -> Result<Tally, NoMemory>
    requires few { spec.HasFewRows folded.now }
    ensures counts { IfOk result (λ tally. tally ≡ spec.counts_of folded.now) }
    ensures least { steps.old ≤ steps.new }
    ensures most { steps.new ≤ steps.old + list_steps folded.now }
{
    let mut rows = ClusterRows::of(alloc, folded, None)?;
    let mut tally = Tally::new();
    while let Some(row) = rows.next(steps)? {
        tally.count(&row.key);
    }
    Ok(tally)
}

// The lines of these counts.
fn summary(alloc: Global, workloads: u32, tally: &Tally) -> Result<String, NoMemory>
    ensures { IfOk result (λ lines. string_bytes lines ≡ spec.count_lines workloads tally.now) }
{
    let workloads = count_line(alloc, "workloads", u128::from(workloads))?;
    let pairs = count_line(alloc, "pair rows", tally.pairs())?;
    let addresses = count_line(alloc, "address rows", tally.addresses())?;
    let controllers = count_line(alloc, "ingress rows", tally.controllers())?;
    Ok(format!(in alloc; "{workloads}{pairs}{addresses}{controllers}")?)
}

// The line of a count.
fn count_line(alloc: Global, what: &str, count: u128) -> Result<String, NoMemory>
    ensures { IfOk result (λ line. string_bytes line ≡ spec.count_line what.now count) }
{
    Ok(format!(in alloc; "{what} {count}\n")?)
}
