//! The texts of a row.
ghost use Rattle.std.specs.Prelude.{◌≡◌, ◌++◌, [], IfOk, slice_index_or};
ghost use Rattle.np_report.specs.RowText as spec;

use crate::spans::span_text;
use np_addr::Family;
use np_args::Report;
use np_base::{NoMemory, Text};
use np_conns::print_conns;
use np_fold::Workloads;
use np_table::{Row, RowEnd};
use std::alloc::Global;

/// The three texts of a row of a report.
#[derive(Drop)]
pub struct RowText {
    pub source: Text,
    pub destination: Text,
    pub connections: Text,
}

/// The texts of a row: its ends, with the mark of its family behind the destination where it is of one family of two, and
/// its connections by `print_conns`. A workload stands there by its name, and a range of addresses as the report says.
#[tactic(auto, unfolding(crate::specs::RowText::row_text))]
pub fn row_text(
    alloc: Global,
    workloads: &Workloads,
    row: &Row,
    report: Report,
) -> Result<RowText, NoMemory>
    ensures { IfOk result (λ text. text ≡ spec.row_text (spec.names_of workloads.now) report row.now) }
{
    let source = end_text(alloc, workloads, row.key.source, report)?;
    let destination = end_text(alloc, workloads, row.key.destination, report)?;
    Ok(RowText {
        source,
        destination: marked(alloc, destination, row.family)?,
        connections: print_conns(alloc, &row.conns)?,
    })
}

// The text of an end of a row.
fn end_text(
    alloc: Global,
    workloads: &Workloads,
    end: RowEnd,
    report: Report,
) -> Result<Text, NoMemory>
    ensures { IfOk result (λ text. text ≡ spec.row_end_text (spec.names_of workloads.now) report end) }
{
    match end {
        RowEnd::Work(number) => Text::of(alloc, name_of(workloads, number)),
        RowEnd::Span(addresses) => span_text(alloc, addresses, report),
        RowEnd::Controller => Text::of(alloc, "{ingress-controller}"),
    }
}

// The name of a workload, and no text where there is no such workload.
fn name_of(workloads: &Workloads, number: u32) -> &str
    ensures { result.now ≡ slice_index_or (spec.names_of workloads.now) number [] }
{
    if number < workloads.count() {
        workloads.name(number)
    } else {
        ""
    }
}

// A text with the suffix of a family behind it, where there is one.
fn marked(alloc: Global, text: Text, family: Option<Family>) -> Result<Text, NoMemory>
    ensures { IfOk result (λ made. made ≡ text ++ spec.family_suffix family) }
{
    let suffix = family_suffix(family);
    Ok(Text::from_string(format!(in alloc; "{text}{suffix}")?))
}

/// What follows an end where a line speaks of one family alone: ` (IPv4)`, ` (IPv6)`, or nothing where it speaks of both.
pub fn family_suffix(family: Option<Family>) -> &'static str
    ensures { result.now ≡ spec.family_suffix family }
{
    match family {
        Some(Family::Four) => " (IPv4)",
        Some(Family::Six) => " (IPv6)",
        None => "",
    }
}
