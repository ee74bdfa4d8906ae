//! `explain`: what decides between two ends.
ghost use Rattle.std.specs.Prelude.{◌≡◌, IfOk, None, Some, if◌then◌else◌, string_bytes};
ghost use Rattle.np_command.specs.Prelude.{Gives, Puts, Writes, Wrote, sunk};
ghost use Rattle.np_command_explain.specs.Report as spec;
ghost use Rattle.np_command_explain.specs.steps.Explaining.{AreEnds, HasPods, IsAsked, head_line, parts_at, row_line};
ghost use Rattle.np_model.specs.Prelude.{IsLawful};
ghost use Rattle.np_explain.specs.Prelude.{IsFamilyOf, explanation_of};
ghost use Rattle.np_fold.specs.Prelude.{folding_of};

use np_addr::{Address, Family};
use np_args::EndWord;
use np_base::{NoMemory, Seq, Text};
use np_command::{Failure, Fault, WriteFault, end_text, workload_of};
use np_conns::print_conns;
use np_explain::{Explanation, Flow, Part, explain_sides, family_asked, print_decider, same_sides};
use np_fold::{Folded, Workloads};
use np_io::{BufferedSink, Sink};
use np_model::{Direction, Estate};
use np_report::family_suffix;
use np_rules::{End, direction_text};
use std::alloc::Global;

/// An end that is asked about: an address, or the workload of a number.
#[derive(Clone, Copy)]
pub enum AskedEnd {
    At(Address),
    Work(u32),
}

/// The two ends that stand for those that are asked about: pods of the workloads, or the addresses.
#[derive(Clone, Copy)]
pub struct ExplainedEnds {
    pub source: End,
    pub destination: End,
}

/// An explanation, with the family that it is of where that of the other one is different.
#[derive(Drop)]
pub struct Shown {
    pub mark: Option<Family>,
    pub made: Explanation,
}

/// Writes what decides between two ends: for each side what decides, with all that it decides, and then the row of what passes.
/// It is written once, or for each family where both ends are pods and either side has other parts in the list's two families.
/// `UnknownEnd` comes exactly where a word names no workload, with the first such word, and `SameEnd` exactly where both name
/// one workload of one pod, before the first byte is written.
#[tactic(auto, unfolding(crate::specs::Report::explain_reply))]
pub fn explain<O: Sink>(
    alloc: Global,
    folded: &Folded,
    from: &EndWord,
    to: &EndWord,
    out: &mut O,
) -> Result<(), Failure>
    ensures { Wrote (sunk O.taken O.faults out.old out.new) (spec.explain_reply from.now to.now folded.now) result }
{
    let ends = ends_named(alloc, folded, from, to)?;
    let shown = explanations(alloc, folded.estate(), &ends)?;
    let from = end_text(alloc, from)?;
    let to = end_text(alloc, to)?;
    write_shown(alloc, &from, &to, shown.items(), out)?;
    Ok(())
}

// ---- ends

// What stands for the ends that words name.
#[tactic(auto, unfolding(crate::specs::Report::ends_named))]
fn ends_named(
    alloc: Global,
    folded: &Folded,
    from: &EndWord,
    to: &EndWord,
) -> Result<ExplainedEnds, Failure>
    ensures named { Gives result (spec.ends_named folded.now from.now to.now) }
    ensures ends { IfOk result (AreEnds folded.now) }
{
    let source = asked_end(folded, from)?;
    let destination = asked_end(folded, to)?;
    let from = end_text(alloc, from)?;
    ends_between(folded, source, destination, &from)
}

// The end that a word names.
#[tactic(auto, unfolding(crate::specs::Report::asked_end))]
fn asked_end(folded: &Folded, word: &EndWord) -> Result<AskedEnd, Failure>
    ensures asked { Gives result (spec.asked_end folded.now word.now) }
    ensures there { IfOk result (IsAsked folded.now) }
{
    match word {
        EndWord::At(address) => Ok(AskedEnd::At(*address)),
        EndWord::Named(name) => Ok(AskedEnd::Work(workload_of(folded, name)?)),
    }
}

// What stands for two ends. `SameEnd` comes exactly where both are one workload of one pod, with the word of the source.
#[tactic(auto, unfolding(crate::specs::Report::ends_between))]
fn ends_between(
    folded: &Folded,
    source: AskedEnd,
    destination: AskedEnd,
    from: &Text,
) -> Result<ExplainedEnds, Failure>
    requires source { IsAsked folded.now source }
    requires destination { IsAsked folded.now destination }
    ensures between { Gives result (spec.ends_between (folding_of folded.now) from.now source destination) }
    ensures ends { IfOk result (AreEnds folded.now) }
{
    let workloads = folded.workloads();
    match destination_end(workloads, source, destination) {
        Some(far) => Ok(ExplainedEnds {
            source: source_end(workloads, source),
            destination: far,
        }),
        None => Err(Failure::Refused(Fault::SameEnd { name: from.copy()? })),
    }
}

// What stands for a source: of a workload its first pod.
fn source_end(workloads: &Workloads, end: AskedEnd) -> End
    requires { HasPods workloads.now end }
    ensures { result ≡ spec.source_end workloads.now end }
{
    match end {
        AskedEnd::At(address) => End::At(address),
        AskedEnd::Work(number) => End::Pod(workloads.members(number)[0]),
    }
}

// What stands for a destination: of a workload its first pod, or its second where the source is the same workload. `None`
// exactly where there is no second.
fn destination_end(workloads: &Workloads, source: AskedEnd, destination: AskedEnd) -> Option<End>
    requires { HasPods workloads.now destination }
    ensures { result ≡ (if spec.are_one workloads.now source destination then None
        else Some (spec.destination_end workloads.now source destination)) }
{
    match (source, destination) {
        (AskedEnd::Work(sender), AskedEnd::Work(receiver)) => {
            let place = if sender == receiver { 1 } else { 0 };
            match workloads.members(receiver).get(place) {
                Some(pod) => Some(End::Pod(*pod)),
                None => None,
            }
        }
        _ => Some(source_end(workloads, destination)),
    }
}

// ---- explanations

// What is shown of two ends.
#[tactic(auto, unfolding(crate::specs::Report::explanations))]
fn explanations(
    alloc: Global,
    estate: &Estate,
    ends: &ExplainedEnds,
) -> Result<Seq<Shown>, NoMemory>
    requires lawful { IsLawful estate.now }
    requires ends { AreEnds estate.now ends.now }
    ensures { IfOk result (λ shown. shown ≡ spec.explanations estate.now ends.now) }
{
    match family_asked(estate, ends.source, ends.destination) {
        Some(family) => {
            let made = explanation_in(alloc, estate, ends, family)?;
            let mut shown = Seq::new(alloc);
            shown.push(Shown { mark: None, made })?;
            Ok(shown)
        }
        None => {
            let four = explanation_in(alloc, estate, ends, Family::Four)?;
            let six = explanation_in(alloc, estate, ends, Family::Six)?;
            of_both(alloc, four, six)
        }
    }
}

// The explanation of two ends in a family.
fn explanation_in(
    alloc: Global,
    estate: &Estate,
    ends: &ExplainedEnds,
    family: Family,
) -> Result<Explanation, NoMemory>
    requires lawful { IsLawful estate.now }
    requires ends { AreEnds estate.now ends.now }
    requires family { IsFamilyOf ends.now.source ends.now.destination family }
    ensures { IfOk result (λ made. made ≡ explanation_of estate.now ends.now.source ends.now.destination family) }
{
    let flow = Flow {
        source: ends.source,
        destination: ends.destination,
        family,
    };
    explain_sides(alloc, estate, &flow)
}

// One of them where both sides have the same parts in both families, and else both, with their marks.
fn of_both(alloc: Global, four: Explanation, six: Explanation) -> Result<Seq<Shown>, NoMemory>
    ensures { IfOk result (λ shown. shown ≡ spec.shown_of_both four six) }
{
    let mut shown = Seq::new(alloc);
    if same_sides(&four, &six) {
        shown.push(Shown {
            mark: None,
            made: four,
        })?;
        return Ok(shown);
    }
    shown.push(Shown {
        mark: Some(Family::Four),
        made: four,
    })?;
    shown.push(Shown {
        mark: Some(Family::Six),
        made: six,
    })?;
    Ok(shown)
}

// ---- text

// Writes what is shown. Lines are gathered, so that many of them are one call of the sink, and no more of the text is held.
#[tactic(auto, unfolding(crate::specs::Report::explain_text))]
fn write_shown<O: Sink>(
    alloc: Global,
    from: &Text,
    to: &Text,
    shown: &[Shown],
    out: &mut O,
) -> Result<(), WriteFault>
    ensures { Writes (sunk O.taken O.faults out.old out.new) (spec.explain_text from.now to.now shown.now) result }
{
    let mut gathered = BufferedSink::new(alloc)?;
    for one in shown {
        put_shown(alloc, &mut gathered, out, from, to, one)?;
    }
    gathered.finish(out)?;
    Ok(())
}

// Puts both sides of an explanation, and the row of what passes.
fn put_shown<O: Sink>(
    alloc: Global,
    gathered: &mut BufferedSink,
    out: &mut O,
    from: &Text,
    to: &Text,
    one: &Shown,
) -> Result<(), WriteFault>
    ensures { Puts (sunk O.taken O.faults out.old out.new) gathered.old gathered.new
        (spec.shown_text from.now to.now one.now)
        result }
{
    put_side(alloc, gathered, out, Direction::Egress, from, one)?;
    put_side(alloc, gathered, out, Direction::Ingress, to, one)?;
    let row = row_line(alloc, from, to, one)?;
    gathered.put(out, row.as_bytes())?;
    Ok(())
}

// Puts what decides at a side, under the name of its end.
fn put_side<O: Sink>(
    alloc: Global,
    gathered: &mut BufferedSink,
    out: &mut O,
    direction: Direction,
    name: &Text,
    one: &Shown,
) -> Result<(), WriteFault>
    ensures { Puts (sunk O.taken O.faults out.old out.new) gathered.old gathered.new
        (spec.side_text direction name.now one.now.mark (parts_at direction one.now.made))
        result }
{
    let head = head_line(alloc, direction, name, one.mark)?;
    gathered.put(out, head.as_bytes())?;
    let parts = parts_at(&one.made, direction);
    for part in parts {
        let line = part_line(alloc, direction, part)?;
        gathered.put(out, line.as_bytes())?;
    }
    Ok(())
}

// The parts of a side.
fn parts_at(made: &Explanation, direction: Direction) -> &[Part]
    ensures { result.now ≡ parts_at direction made.now }
{
    match direction {
        Direction::Egress => made.egress.items(),
        Direction::Ingress => made.ingress.items(),
    }
}

// `egress of end`, where a mark may follow.
fn head_line(
    alloc: Global,
    direction: Direction,
    name: &Text,
    mark: Option<Family>,
) -> Result<String, NoMemory>
    ensures { IfOk result (λ line. string_bytes line ≡ head_line direction name.now mark) }
{
    let side = direction_text(direction);
    let mark = family_suffix(mark);
    Ok(format!(in alloc; "{side} of {name}{mark}\n")?)
}

// `connections : decider`.
fn part_line(alloc: Global, direction: Direction, part: &Part) -> Result<String, NoMemory>
    ensures { IfOk result (λ line. string_bytes line ≡ spec.part_line direction part.now) }
{
    let conns = print_conns(alloc, &part.conns)?;
    let decider = print_decider(alloc, direction, &part.decider)?;
    Ok(format!(in alloc; "{conns} : {decider}\n")?)
}

// `from => to : connections`, where a mark may follow the ends.
fn row_line(alloc: Global, from: &Text, to: &Text, one: &Shown) -> Result<String, NoMemory>
    ensures { IfOk result (λ line. string_bytes line ≡ row_line from.now to.now one.now) }
{
    let mark = family_suffix(one.mark);
    let conns = print_conns(alloc, &one.made.conns)?;
    Ok(format!(in alloc; "{from} => {to}{mark} : {conns}\n")?)
}
