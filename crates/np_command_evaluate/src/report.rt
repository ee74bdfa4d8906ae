//! `evaluate`: the verdict of one packet.
ghost use Rattle.std.specs.Prelude.{◌≡◌, ◌<◌, ◌^◌, ◌++◌, IfOk, IfSome, codes, length, string_bytes};
ghost use Rattle.std.specs.List.{position};
ghost use Rattle.std.specs.Str.{bytes_eq};
ghost use Rattle.np_command.specs.Prelude.{Gives, Wrote, sunk};
ghost use Rattle.np_explain.specs.Prelude.{are_one_pod, passes_between};
ghost use Rattle.np_command_evaluate.specs.Report as spec;
ghost use Rattle.np_rules.specs.Prelude.{IsEndOf};

use np_addr::Family;
use np_args::EndWord;
use np_base::{NoMemory, Text};
use np_command::{Failure, Fault, end_text};
use np_conns::PortSpot;
use np_explain::family_asked;
use np_fold::Folded;
use np_io::{Sink, write_whole};
use np_model::{Estate, Pod};
use np_report::family_suffix;
use np_rules::{End, Packet, allows, said_text};
use std::alloc::Global;

/// A packet as words ask for it, in every family: its two ends, and its protocol and port.
#[derive(Drop)]
pub struct PacketWords<'a> {
    pub from: &'a EndWord,
    pub to: &'a EndWord,
    pub spot: PortSpot,
}

// A packet whose family is open: its two ends with their texts, and its protocol and port.
#[derive(Drop)]
struct AskedPacket {
    source: End,
    destination: End,
    from: Text,
    to: Text,
    spot: PortSpot,
}

/// Writes whether the packet between two ends is allowed: one line, or one for each family where both ends are pods and the
/// verdicts of the list's two families differ. `UnknownEnd` comes exactly where a word names no listed pod, with the first
/// such word, and `SameEnd` exactly where both name one pod.
#[tactic(auto, unfolding(crate::specs::Report::evaluate_reply))]
pub fn evaluate<O: Sink>(
    alloc: Global,
    folded: &Folded,
    words: &PacketWords<'_>,
    out: &mut O,
) -> Result<(), Failure>
    ensures { Wrote (sunk O.taken O.faults out.old out.new)
        (spec.evaluate_reply words.now.from.now words.now.to.now words.now.spot folded.now)
        result }
{
    let estate = folded.estate();
    let source = end_of(alloc, estate, words.from)?;
    let destination = end_of(alloc, estate, words.to)?;
    let from = end_text(alloc, words.from)?;
    must_be_apart(source, destination, &from)?;
    let packet = AskedPacket {
        source,
        destination,
        from,
        to: end_text(alloc, words.to)?,
        spot: words.spot,
    };
    let lines = verdict_lines(alloc, estate, &packet)?;
    write_whole(out, lines.as_bytes())?;
    Ok(())
}

// ---- ends

// The end that a word names.
#[tactic(auto, unfolding(crate::specs::Report::known_end))]
fn end_of(alloc: Global, estate: &Estate, word: &EndWord) -> Result<End, Failure>
    requires { length estate.now.pods < 2 ^ 32 }
    ensures found { Gives result (spec.known_end estate.now word.now) }
    ensures there { IfOk result (IsEndOf estate.now) }
{
    match word {
        EndWord::At(address) => Ok(End::At(*address)),
        EndWord::Named(name) => match pod_named(estate.pods(), name.as_str()) {
            Some(place) => Ok(End::Pod(place)),
            None => {
                let name = Text::of(alloc, name.as_str())?;
                Err(Failure::Refused(Fault::UnknownEnd { name }))
            }
        },
    }
}

// The place of the listed pod that a word names.
fn pod_named(pods: &[Pod], name: &str) -> Option<u32>
    requires { length pods.now < 2 ^ 32 }
    ensures place { result ≡ position (spec.is_listed_as name.now) pods.now }
    ensures within { IfSome result (λ place. place < length pods.now) }
{
    match place_named(pods, name) {
        Some(place) => Some(place as u32),
        None => None,
    }
}

fn place_named(pods: &[Pod], name: &str) -> Option<usize>
    ensures place { result ≡ position (spec.is_listed_as name.now) pods.now }
    ensures within { IfSome result (λ place. place < length pods.now) }
{
    pods.iter().position(|pod| is_named(pod, name))
}

// Whether a pod is the listed one that a word names.
fn is_named(pod: &Pod, name: &str) -> bool
    ensures { result ≡ spec.is_listed_as name.now pod.now }
{
    pod.listed && is_word_of(pod, name)
}

// Whether a word is `namespace/name` of a pod.
fn is_word_of(pod: &Pod, word: &str) -> bool
    ensures { result ≡ bytes_eq word.now (spec.pod_word pod.now) }
{
    match word
        .as_bytes()
        .strip_prefix(pod.namespace.as_str().as_bytes())
    {
        Some(rest) => is_slash_and(rest, pod.name.as_str()),
        None => false,
    }
}

// Whether bytes are a slash and a name.
fn is_slash_and(bytes: &[u8], name: &str) -> bool
    ensures { result ≡ bytes_eq bytes.now (codes "/" ++ name.now) }
{
    match bytes.split_first() {
        Some((slash, rest)) => *slash == b'/' && rest == name.as_bytes(),
        None => false,
    }
}

// Refuses ends that are one pod.
fn must_be_apart(source: End, destination: End, from: &Text) -> Result<(), Failure>
    ensures { Gives result (spec.must_be_apart from.now source destination) }
{
    if are_one_pod(source, destination) {
        return Err(Failure::Refused(Fault::SameEnd { name: from.copy()? }));
    }
    Ok(())
}

fn are_one_pod(source: End, destination: End) -> bool
    ensures { result ≡ are_one_pod source destination }
{
    match (source, destination) {
        (End::Pod(p), End::Pod(q)) => p == q,
        _ => false,
    }
}

// ---- lines

// The lines of a packet in the families that are asked about.
#[tactic(auto, unfolding(crate::specs::Report::verdict_lines))]
fn verdict_lines(alloc: Global, estate: &Estate, packet: &AskedPacket) -> Result<String, NoMemory>
    requires source { IsEndOf estate.now packet.now.source }
    requires destination { IsEndOf estate.now packet.now.destination }
    ensures { IfOk result (λ text. string_bytes text
        ≡ spec.verdict_lines estate.now packet.now.from packet.now.to packet.now.spot packet.now.source packet.now.destination) }
{
    if let Some(family) = family_asked(estate, packet.source, packet.destination) {
        let verdict = is_allowed(estate, packet, family);
        return verdict_line(alloc, packet, None, verdict);
    }
    let four = is_allowed(estate, packet, Family::Four);
    let six = is_allowed(estate, packet, Family::Six);
    if four == six {
        return verdict_line(alloc, packet, None, four);
    }
    let first = verdict_line(alloc, packet, Some(Family::Four), four)?;
    let second = verdict_line(alloc, packet, Some(Family::Six), six)?;
    Ok(format!(in alloc; "{first}{second}")?)
}

// Whether the packet of a family is allowed.
fn is_allowed(estate: &Estate, packet: &AskedPacket, family: Family) -> bool
    requires source { IsEndOf estate.now packet.now.source }
    requires destination { IsEndOf estate.now packet.now.destination }
    ensures { result
        ≡ passes_between estate.now packet.now.source packet.now.destination family packet.now.spot }
{
    let of_family = Packet {
        source: packet.source,
        destination: packet.destination,
        family,
        proto: packet.spot.proto,
        port: packet.spot.port,
    };
    allows(estate, &of_family)
}

// A line, with the mark of a family behind the destination.
#[tactic(auto, unfolding(crate::specs::Report::verdict_line))]
fn verdict_line(
    alloc: Global,
    packet: &AskedPacket,
    mark: Option<Family>,
    verdict: bool,
) -> Result<String, NoMemory>
    ensures { IfOk result (λ text. string_bytes text
        ≡ spec.verdict_line packet.now.from packet.now.to packet.now.spot mark verdict) }
{
    let AskedPacket { from, to, spot, .. } = packet;
    let mark = family_suffix(mark);
    let said = said_text(alloc, *spot, verdict)?;
    Ok(format!(in alloc; "{from} => {to}{mark} : {said}\n")?)
}
