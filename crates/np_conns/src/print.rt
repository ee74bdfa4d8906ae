//! The text of connections.
ghost use Rattle.std.specs.Prelude.{◌≡◌, ◌&&◌, ◌++◌, codes, IfOk, OnOk, string_bytes};
ghost use Rattle.std.specs.List.{join_by};
ghost use Rattle.np_conns.specs.Prelude.{conns_text, has_spot, is_whole, part, run_text, text_of_runs, with_part};

use crate::conn_set::ConnSet;
use crate::proto::Proto;
use np_base::{NoMemory, Point, PortNum, Range, Text};
use std::alloc::Global;

/// The text of a set: `All Connections` for the whole space, `No Connections` for no spot. For any other set the
/// protocols that have a port, in the order TCP, UDP, SCTP, joined by `; `. Each is its name, a space, and its maximal
/// runs of ports in ascending order, joined by `,`. A run of one port is the port, a longer one is `lo-hi`.
#[tactic(auto, unfolding(crate::specs::ConnsText::conns_text))]
pub fn print_conns(alloc: Global, set: &ConnSet) -> Result<Text, NoMemory>
    ensures { IfOk result (λ text. text ≡ conns_text (has_spot set.now)) }
{
    text_of_runs(
        alloc,
        set.spans(Proto::Tcp),
        set.spans(Proto::Udp),
        set.spans(Proto::Sctp),
    )
}

// The text of the runs of each protocol.
fn text_of_runs(
    alloc: Global,
    tcp: &[Range<PortNum>],
    udp: &[Range<PortNum>],
    sctp: &[Range<PortNum>],
) -> Result<Text, NoMemory>
    ensures { IfOk result (λ text. text ≡ text_of_runs tcp.now udp.now sctp.now) }
{
    if are_whole(tcp, udp, sctp) {
        return Text::of(alloc, "All Connections");
    }
    let mut text = String::new(alloc);
    push_part(&mut text, Proto::Tcp, tcp)?;
    push_part(&mut text, Proto::Udp, udp)?;
    push_part(&mut text, Proto::Sctp, sctp)?;
    if text.is_empty() {
        return Text::of(alloc, "No Connections");
    }
    Ok(Text::from_string(text))
}

// Appends a protocol's part to the parts so far. A protocol without ports has none.
fn push_part(text: &mut String, proto: Proto, runs: &[Range<PortNum>]) -> Result<(), NoMemory>
    ensures { OnOk result
        (string_bytes text.new ≡ with_part (string_bytes text.old) (part proto runs.now)) }
{
    if runs.is_empty() {
        return Ok(());
    }
    if !text.is_empty() {
        text.push_str("; ")?;
    }
    write!(text, "{proto} ")?;
    push_runs(text, runs)
}

// Appends a run: the port, or `lo-hi`.
fn push_run(text: &mut String, run: Range<PortNum>) -> Result<(), NoMemory>
    ensures { OnOk result (string_bytes text.new ≡ string_bytes text.old ++ run_text run) }
{
    let lo = run.lo.get();
    let hi = run.hi.get();
    if lo == hi {
        write!(text, "{lo}")?;
    } else {
        write!(text, "{lo}-{hi}")?;
    }
    Ok(())
}

// Appends runs, joined by commas.
fn push_runs(text: &mut String, runs: &[Range<PortNum>]) -> Result<(), NoMemory>
    ensures { OnOk result
        (string_bytes text.new ≡ string_bytes text.old ++ join_by run_text (codes ",") runs.now) }
{
    let Some((first, others)) = runs.split_first() else {
        return Ok(());
    };
    push_run(text, *first)?;
    for run in others {
        text.push(',')?;
        push_run(text, *run)?;
    }
    Ok(())
}

// Whether the runs of each protocol are the one run of all ports.
fn are_whole(tcp: &[Range<PortNum>], udp: &[Range<PortNum>], sctp: &[Range<PortNum>]) -> bool
    ensures { result ≡ (is_whole tcp.now && is_whole udp.now && is_whole sctp.now) }
{
    is_whole(tcp) && is_whole(udp) && is_whole(sctp)
}

// Whether the runs are the one run of all ports.
fn is_whole(runs: &[Range<PortNum>]) -> bool
    ensures { result ≡ is_whole runs.now }
{
    match runs {
        [first, ..] => first.lo.number() == PortNum::LOW && first.hi.number() == PortNum::HIGH,
        [] => false,
    }
}
