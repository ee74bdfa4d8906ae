//! What a job asks of what its bytes say, command by command.
ghost use Rattle.std.specs.Prelude.{◌≡◌, ◌≤◌, IfOk, map};
ghost use Rattle.np_cli.specs.Answers as spec;
ghost use Rattle.np_cli.specs.Prelude.{RoseAtMost, reply_steps};
ghost use Rattle.np_command.specs.Prelude.{Wrote, sunk, without_value};
ghost use Rattle.np_command_check.specs.Prelude.{statement_bytes};
ghost use Rattle.np_model.specs.Prelude.{IsLawful};

use np_args::Job;
use np_base::{NoMemory, Seq, Steps};
use np_command::Failure;
use np_command_check::check_file;
use np_command_evaluate::{PacketWords, evaluate};
use np_command_explain::explain;
use np_command_exposure::exposure_of;
use np_command_flatten::flatten_in;
use np_command_list::{Presentation, list, listing_of};
use np_command_sample::count_rows;
use np_command_unused::unused;
use np_conns::PortSpot;
use np_fold::Folded;
use np_frame::{PreparedNotes, ReportNotes};
use np_io::Sink;
use np_model::Notes;
use np_routes::route_notes;
use std::alloc::Global;
use std::sync::ledger::Ledger;

// Nothing was left out.
const NOTHING: Notes = Notes {
    host: 0,
    finished: 0,
    skipped: 0,
    unaddressed: 0,
};

/// Writes what a job prints by the bytes that it read and what they say, or refuses that. What it refuses, it refuses before
/// the first byte is written. Answers whether all that the job was to check holds, of which only `check` has anything.
#[tactic(auto, unfolding(crate::specs::Answers::reply, crate::specs::Answers::check_holds, crate::specs::Counts::reply_steps))]
pub(crate) fn reply<O: Sink, L: Ledger>(
    alloc: Global,
    job: &Job,
    texts: &[Vec<u8>],
    folded: &Folded,
    out: &mut O,
    steps: &mut Steps<L>,
) -> Result<bool, Failure>
    requires { spec.IsCountable job.now folded.now }
    ensures wrote { Wrote (sunk O.taken O.faults out.old out.new)
        (spec.reply job.now (map (λ text. text.items) texts.now) folded.now)
        (without_value result) }
    ensures holds { IfOk result (λ holds. holds ≡ spec.check_holds job.now (map (λ text. text.items) texts.now) folded.now) }
    ensures least { steps.old ≤ steps.new }
    ensures most { RoseAtMost (reply_steps job.now folded.now) steps.old steps.new }
{
    match job {
        Job::List {
            format,
            report,
            controller,
            focus,
            side,
            ..
        } => {
            let listing = listing_of(folded, controller, focus, *side)?;
            let presentation = Presentation {
                format: *format,
                report: *report,
            };
            list(alloc, folded, listing, presentation, out, steps)?;
        }
        Job::Explain { from, to, .. } => explain(alloc, folded, from, to, out)?,
        Job::Exposure {
            workload,
            format,
            ..
        } => exposure_of(alloc, folded, workload, *format, out)?,
        Job::Evaluate {
            from,
            to,
            proto,
            port,
            ..
        } => {
            let spot = PortSpot {
                proto: *proto,
                port: *port,
            };
            evaluate(alloc, folded, &PacketWords { from, to, spot }, out)?;
        }
        Job::Unused { .. } => unused(alloc, folded, out)?,
        Job::Check { .. } => return check_file(alloc, statement_of(texts), folded, out),
        Job::Flatten { .. } => flatten_in(alloc, folded, out)?,
        Job::Sample { .. } => count_rows(alloc, folded, out, steps)?,
    }
    Ok(true)
}

// The bytes of a statement file, which stand first.
fn statement_of(texts: &[Vec<u8>]) -> &[u8]
    ensures { result.now ≡ statement_bytes (map (λ text. text.items) texts.now) }
{
    match texts.first() {
        Some(text) => text,
        None => &[],
    }
}

/// What is said of a job's report on what its bytes say: what was left out of it, and of `list` the backends of Ingresses
/// that lead nowhere; of `sample` nothing. Its lines are made. The estate is lawful.
#[tactic(auto, unfolding(crate::specs::Answers::report_notes))]
pub(crate) fn report_notes(
    alloc: Global,
    job: &Job,
    folded: &Folded,
) -> Result<PreparedNotes, NoMemory>
    ensures notes { IfOk result (λ notes. notes ≡ spec.report_notes job.now folded.now) }
    ensures lawful { IsLawful folded.now }
{
    let estate = folded.estate();
    let routes = match job {
        Job::List { .. } => route_notes(alloc, estate)?,
        _ => Seq::new(alloc),
    };
    let left_out = match job {
        Job::Sample { .. } => NOTHING,
        _ => estate.notes(),
    };
    PreparedNotes::of(alloc, ReportNotes { left_out, routes })
}
