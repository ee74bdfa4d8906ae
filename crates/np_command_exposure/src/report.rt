//! `exposure`: what pods that nobody has written yet could send to workloads, and be sent by them.
ghost use Rattle.std.specs.Prelude.{◌≡◌, ◌≤◌, ◌++◌, All, IfOk, OnOk, false, flat_map, map};
ghost use Rattle.std.specs.List.{range_with_len};
ghost use Rattle.np_command.specs.Prelude.{Gives, Writes, Wrote, sunk};
ghost use Rattle.np_command_exposure.specs.Report as spec;
ghost use Rattle.np_command_exposure.specs.steps.Known as steps;
ghost use Rattle.np_exposure.specs.declared.exposures.TheConstants.{MOST_PATTERNS as MOST};
ghost use Rattle.np_report.specs.Prelude.{text_to_come};
ghost use Rattle.np_kinds.specs.Prelude.{IsWorkload};

use crate::known_rows::{KnownRows, PeerRow, peer_rows};
use crate::light_sides::LightSides;
use np_args::Format;
use np_base::{NoMemory, Seq, Text};
use np_command::{Failure, Fault, WriteFault, workload_of};
use np_exposure::{ExposureFault, MOST_PATTERNS, exposure, weight};
use np_fold::Folded;
use np_io::{BufferedSink, Sink};
use np_kinds::first_place;
use np_model::Direction;
use np_report::{CsvForm, Form, JsonForm, RowText, TextForm, lines_of};
use np_rules::side_mark;
use std::alloc::Global;

/// A workload, by its number, as it is sent to or as it sends.
#[derive(Clone, Copy)]
pub struct ShownSide {
    pub workload: u32,
    pub direction: Direction,
}

/// Writes the exposure of the workload of a name, or of all: for each of them the rows of what it is sent, and then those of
/// what it sends. `UnknownEnd` comes exactly where no workload has the name, and `TooManyPatterns` exactly where the
/// requirements that are mentioned of a shown workload in a direction may tell apart more patterns of labels than are looked at,
/// with the first such workload, and that of ingress first. Both come before the first byte is written.
#[tactic(auto, unfolding(crate::specs::Report::exposure_reply))]
pub fn exposure_of<O: Sink>(
    alloc: Global,
    folded: &Folded,
    workload: &Option<Text>,
    format: Format,
    out: &mut O,
) -> Result<(), Failure>
    ensures { Wrote (sunk O.taken O.faults out.old out.new)
        (spec.exposure_reply workload.now format folded.now)
        result }
{
    let sides = sides_shown(alloc, folded, workload)?;
    must_be_few(alloc, folded, sides.items())?;
    write_in(alloc, folded, sides.items(), format, out)?;
    Ok(())
}

// ---- what is shown

// Both directions of the workload of a name, or of all workloads.
#[tactic(auto, unfolding(crate::specs::Report::sides_shown))]
fn sides_shown(
    alloc: Global,
    folded: &Folded,
    workload: &Option<Text>,
) -> Result<Seq<ShownSide>, Failure>
    ensures shown { Gives result (spec.sides_shown workload.now folded.now) }
    ensures there { IfOk result (All (λ side. IsWorkload folded.now side.workload)) }
{
    match workload {
        Some(name) => {
            let mut sides = Seq::new(alloc);
            add_both(&mut sides, workload_of(folded, name)?)?;
            Ok(sides)
        }
        None => Ok(all_sides(alloc, folded.workloads().count())?),
    }
}

// Both directions of so many workloads.
fn all_sides(alloc: Global, count: u32) -> Result<Seq<ShownSide>, NoMemory>
    ensures { IfOk result (λ sides. sides ≡ flat_map spec.both_sides (range_with_len 0 count)) }
{
    let mut sides = Seq::new(alloc);
    for workload in 0..count {
        add_both(&mut sides, workload)?;
    }
    Ok(sides)
}

// Adds both directions of a workload.
fn add_both(sides: &mut Seq<ShownSide>, workload: u32) -> Result<(), NoMemory>
    ensures { OnOk result (sides.new ≡ sides.old ++ spec.both_sides workload) }
{
    sides.push(ShownSide {
        workload,
        direction: Direction::Ingress,
    })?;
    sides.push(ShownSide {
        workload,
        direction: Direction::Egress,
    })
}

// Refuses sides of which one has too many patterns, for the first of these.
fn must_be_few(alloc: Global, folded: &Folded, sides: &[ShownSide]) -> Result<(), Failure>
    requires { All (λ side. IsWorkload folded.now side.workload) sides.now }
    ensures few { Gives result (spec.nothing_unless (spec.first_fault folded.now sides.now)) }
{
    let mut light = LightSides::new(alloc, folded.estate());
    for side in sides {
        must_be_light(alloc, folded, *side, &mut light)?;
    }
    Ok(())
}

// Refuses a side that has too many patterns. It is not weighed where an earlier side that is the same has few.
#[tactic(auto, unfolding(crate::specs::Report::weight_fault))]
fn must_be_light(
    alloc: Global,
    folded: &Folded,
    side: ShownSide,
    light: &mut LightSides<'_>,
) -> Result<(), Failure>
    requires there { IsWorkload folded.now side.workload }
    requires light { light.old ≡ folded.now }
    ensures few { Gives result (spec.nothing_unless (spec.weight_fault folded.now side)) }
    ensures light { light.new ≡ light.old }
{
    let workloads = folded.workloads();
    let pod = first_place(folded, side.workload);
    let mark = side_mark(folded.estate(), pod, side.direction);
    if light.has(pod, side.direction, mark) {
        return Ok(());
    }
    let weight = weight(alloc, folded.estate(), pod, side.direction)?;
    if weight <= MOST_PATTERNS {
        light.keep(pod, side.direction, mark)?;
        return Ok(());
    }
    let workload = Text::of(alloc, workloads.name(side.workload))?;
    Err(Failure::Refused(Fault::TooManyPatterns {
        workload,
        direction: side.direction,
        weight,
    }))
}

// ---- rows

// Writes the rows of some sides in a format.
#[tactic(auto, unfolding(crate::specs::Report::exposure_text))]
fn write_in<O: Sink>(
    alloc: Global,
    folded: &Folded,
    sides: &[ShownSide],
    format: Format,
    out: &mut O,
) -> Result<(), WriteFault>
    requires there { All (λ side. IsWorkload folded.now side.workload) sides.now }
    requires few { All (λ side. spec.weight_at folded.now side ≤ MOST) sides.now }
    ensures { Writes (sunk O.taken O.faults out.old out.new) (spec.exposure_text format folded.now sides.now) result }
{
    match format {
        Format::Plain => write_sides::<TextForm, O>(alloc, folded, sides, out),
        Format::Csv => write_sides::<CsvForm, O>(alloc, folded, sides, out),
        Format::Json => write_sides::<JsonForm, O>(alloc, folded, sides, out),
    }
}

// Writes the rows of some sides in a form. They are made side by side, and gathered, so that many rows are one call of the
// sink.
fn write_sides<F: Form, O: Sink>(
    alloc: Global,
    folded: &Folded,
    sides: &[ShownSide],
    out: &mut O,
) -> Result<(), WriteFault>
    requires there { All (λ side. IsWorkload folded.now side.workload) sides.now }
    requires few { All (λ side. spec.weight_at folded.now side ≤ MOST) sides.now }
    ensures { Writes (sunk O.taken O.faults out.old out.new)
        (text_to_come F.bytes false (flat_map (spec.side_rows folded.now) sides.now))
        result }
{
    let mut gathered = BufferedSink::new(alloc)?;
    let mut known = KnownRows::new(alloc, folded.estate());
    let mut has_rows = false;
    for side in sides {
        let rows = rows_at(alloc, folded, *side, &mut known)?;
        let lines = lines_of::<F>(alloc, has_rows, rows.items())?;
        gathered.put(out, &lines)?;
        has_rows |= !rows.items().is_empty();
    }
    gathered.put(out, F::end(has_rows).as_bytes())?;
    gathered.finish(out)?;
    Ok(())
}

// The rows of a side, those of which it takes from an earlier side that is the same, where that is known.
#[tactic(auto, unfolding(crate::specs::Report::side_rows))]
fn rows_at(
    alloc: Global,
    folded: &Folded,
    side: ShownSide,
    known: &mut KnownRows<'_>,
) -> Result<Seq<RowText>, NoMemory>
    requires there { IsWorkload folded.now side.workload }
    requires few { spec.weight_at folded.now side ≤ MOST }
    requires known { known.old ≡ folded.now }
    ensures rows { IfOk result (λ rows. rows ≡ spec.side_rows folded.now side) }
    ensures known { OnOk result (known.new ≡ known.old) }
{
    let workloads = folded.workloads();
    let name = workloads.name(side.workload);
    let pod = first_place(folded, side.workload);
    let mark = side_mark(folded.estate(), pod, side.direction);
    if let Some(rows) = known.find(pod, side.direction, mark) {
        return row_texts(alloc, name, side.direction, rows);
    }
    let rows = rows_found(alloc, folded, side)?;
    let texts = row_texts(alloc, name, side.direction, rows.items())?;
    known.keep(pod, side.direction, mark, rows)?;
    Ok(texts)
}

// The rows of a side, without the name of its workload.
fn rows_found(alloc: Global, folded: &Folded, side: ShownSide) -> Result<Seq<PeerRow>, NoMemory>
    requires there { IsWorkload folded.now side.workload }
    requires few { spec.weight_at folded.now side ≤ MOST }
    ensures { IfOk result (λ rows. rows ≡ steps.peer_rows (spec.pod_side folded.now side)) }
{
    let pod = first_place(folded, side.workload);
    match exposure(alloc, folded.estate(), pod, side.direction) {
        Ok(rows) => peer_rows(alloc, rows.items()),
        Err(ExposureFault::NoMemory) => Err(NoMemory),
        Err(ExposureFault::TooManyPatterns { .. }) => unreachable!(),
    }
}

// The texts of the rows of a side of a workload of this name.
fn row_texts(
    alloc: Global,
    name: &str,
    direction: Direction,
    rows: &[PeerRow],
) -> Result<Seq<RowText>, NoMemory>
    ensures { IfOk result (λ texts. texts ≡ map (steps.named_row name.now direction) rows.now) }
{
    let mut texts = Seq::new(alloc);
    for row in rows {
        texts.push(row_text(alloc, name, direction, row)?)?;
    }
    Ok(texts)
}

// The texts of a row.
fn row_text(
    alloc: Global,
    name: &str,
    direction: Direction,
    row: &PeerRow,
) -> Result<RowText, NoMemory>
    ensures { IfOk result (λ text. text ≡ steps.named_row name.now direction row.now) }
{
    let peer = row.peer.copy()?;
    let name = Text::of(alloc, name)?;
    let connections = row.connections.copy()?;
    Ok(match direction {
        Direction::Ingress => RowText {
            source: peer,
            destination: name,
            connections,
        },
        Direction::Egress => RowText {
            source: name,
            destination: peer,
            connections,
        },
    })
}
