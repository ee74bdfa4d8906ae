//! Reading the text of connections.
//!
//! The readers of the parts take what is printed, and some other texts. `read_conns` prints what they made, and takes
//! it only where that gives the text again. Runs are joined in halves, and a text has a part for each protocol at
//! most, so a text of n bytes takes time n log n.
ghost use Rattle.std.specs.Prelude.{◌≡◌, ◌≢◌, ℕ, ◌≤◌, ◌||◌, ◌∷◌, List, All, length, Some, codes, decimal, IfOk, IfSome, IsErrOf};
ghost use Rattle.std.specs.List.{join_by, AllByRecursion};
ghost use Rattle.np_base.specs.Ranges.{is_within, holds};
ghost use Rattle.np_base.specs.declared.range.Range.{Range};
ghost use Rattle.np_conns.specs.Prelude.{AscendsInPorts, Conns, GivesPorts, GivesSpots, IsConns, IsPart, IsRun, IsTextOfPart, Part, conns_text, has_spot, in_part, in_parts, in_runs, proto_name, run_text, text_of_part};
ghost use Rattle.np_conns.specs.declared.proto.Proto.{Proto};

use crate::conn_set::ConnSet;
use crate::conns_fault::ConnsFault;
use crate::print::print_conns;
use crate::proto::Proto;
use np_base::{Cells, NoMemory, Point, PortNum, Range, Seq};
use np_sets::IntervalSet;
use std::alloc::Global;

/// Reads the text of a set, as `print_conns` gives it. `BadConns` exactly where no set has this text: other orders,
/// spaces, leading zeros, runs that touch, and an empty text are refused.
pub fn read_conns(alloc: Global, text: &str) -> Result<ConnSet, ConnsFault>
    ensures well { IfOk result IsConns }
    ensures read { IfOk result (λ made. text.now ≡ conns_text (has_spot made)) }
    ensures bad { IsErrOf result ConnsFault.BadConns →
        (conns : Conns) → IsConns conns → text.now ≢ conns_text (has_spot conns) }
    ensures again { (conns : Conns) → IsConns conns → text.now ≡ conns_text (has_spot conns) →
        IfOk result (λ made. made ≡ conns) }
{
    let set = read_leniently(alloc, text)?;
    let printed = print_conns(alloc, &set)?;
    if printed.as_str() == text {
        Ok(set)
    } else {
        Err(ConnsFault::BadConns)
    }
}

// The set of a text that is printed. Some other texts give a set too.
fn read_leniently(alloc: Global, text: &str) -> Result<ConnSet, ConnsFault>
    ensures well { IfOk result IsConns }
    ensures printed { (conns : Conns) → IsConns conns → text.now ≡ conns_text (has_spot conns) →
        GivesSpots (has_spot conns) result }
{
    match text {
        "All Connections" => Ok(ConnSet::everything(alloc)?),
        "No Connections" => Ok(ConnSet::nothing(alloc)?),
        _ => read_parts(alloc, text),
    }
}

// Parts that are joined by `; `, at most one for each protocol.
fn read_parts(alloc: Global, text: &str) -> Result<ConnSet, ConnsFault>
    ensures well { IfOk result IsConns }
    ensures printed { (part : Part) (others : List Part) → length others ≤ 2 →
        AllByRecursion IsPart (part ∷ others) →
        text.now ≡ join_by text_of_part (codes "; ") (part ∷ others) →
        GivesSpots (in_parts (part ∷ others)) result }
{
    if text.split(';').count() > 3 {
        return Err(ConnsFault::BadConns);
    }
    let mut set = ConnSet::nothing(alloc)?;
    for piece in text.split(';') {
        set = add_part(alloc, &set, piece)?;
    }
    Ok(set)
}

// The set joined with a part, which may have a space before it.
fn add_part(alloc: Global, set: &ConnSet, text: &str) -> Result<ConnSet, ConnsFault>
    ensures well { IfOk result IsConns }
    ensures printed { (part : Part) → IsPart part →
        IsTextOfPart text.now part →
        GivesSpots (λ spot. has_spot set.now spot || in_part spot part) result }
{
    let part = read_part(alloc, text.strip_prefix(' ').unwrap_or(text))?;
    Ok(set.join(&part)?)
}

// A protocol's name, a space, and its runs.
fn read_part(alloc: Global, text: &str) -> Result<ConnSet, ConnsFault>
    ensures well { IfOk result IsConns }
    ensures printed { (part : Part) → IsPart part → text.now ≡ text_of_part part →
        GivesSpots (λ spot. in_part spot part) result }
{
    let (name, runs) = text.split_once(' ').ok_or(ConnsFault::BadConns)?;
    let proto = read_proto(name).ok_or(ConnsFault::BadConns)?;
    let ports = read_runs(alloc, runs)?;
    Ok(ConnSet::of_set(alloc, proto, ports)?)
}

// A protocol's name.
fn read_proto(text: &str) -> Option<Proto>
    ensures { (proto : Proto) → text.now ≡ proto_name proto → result ≡ Some proto }
{
    match text {
        "TCP" => Some(Proto::Tcp),
        "UDP" => Some(Proto::Udp),
        "SCTP" => Some(Proto::Sctp),
        _ => None,
    }
}

// Runs that are joined by commas.
fn read_runs(alloc: Global, text: &str) -> Result<IntervalSet<PortNum>, ConnsFault>
    ensures well { IfOk result AscendsInPorts }
    ensures printed { (run : Range ℕ) (others : List (Range ℕ)) →
        AllByRecursion IsRun (run ∷ others) →
        text.now ≡ join_by run_text (codes ",") (run ∷ others) →
        GivesPorts (in_runs (run ∷ others)) result }
{
    let mut runs = Seq::new(alloc);
    for piece in text.split(',') {
        let run = read_run(piece).ok_or(ConnsFault::BadConns)?;
        runs.push(run)?;
    }
    Ok(ports_of(alloc, runs.items())?)
}

// The ports of runs, joined in halves.
fn ports_of(alloc: Global, runs: &[Range<PortNum>]) -> Result<IntervalSet<PortNum>, NoMemory>
    requires { All (λ run. run.lo ≤ run.hi) runs.now }
    ensures members { IfOk result (λ made. (port : ℕ) →
        holds (λ p. p) made port ≡ in_runs runs.now port) }
    ensures well { IfOk result AscendsInPorts }
{
    match runs {
        [] => IntervalSet::nothing(alloc),
        [run] => IntervalSet::of_range(alloc, run.lo, run.hi),
        _ => {
            let (front, back) = runs.split_at(runs.len() / 2);
            let joined = ports_of(alloc, front)?.join(&ports_of(alloc, back)?)?;
            Ok(joined)
        }
    }
}

// A run as it is printed, among other forms: a port, or `lo-hi`.
fn read_run(text: &str) -> Option<Range<PortNum>>
    ensures ordered { IfSome result (λ run. run.lo ≤ run.hi) }
    ensures printed { (run : Range ℕ) → IsRun run → text.now ≡ run_text run → result ≡ Some run }
{
    let (lo, hi) = text.split_once('-').unwrap_or((text, text));
    let lo = read_port(lo)?;
    let hi = read_port(hi)?;
    (lo <= hi).then_some(Range { lo, hi })
}

// A port as it is printed, among other forms.
fn read_port(text: &str) -> Option<PortNum>
    ensures { (port : ℕ) → 1 ≤ port → port ≤ 65535 → text.now ≡ decimal port → result ≡ Some port }
{
    let number = text.parse::<u16>().ok()?;
    PortNum::at(u128::from(number))
}
