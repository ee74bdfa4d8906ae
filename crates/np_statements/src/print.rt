//! The line that says how a statement is broken.
ghost use Rattle.std.specs.Prelude.{◌≡◌, ◌++◌, IfOk, string_bytes};
ghost use Rattle.np_model.specs.Prelude.{families_of};
ghost use Rattle.np_statements.specs.Prelude.{HasPlaces, IsPlace};
ghost use Rattle.np_statements.specs.BrokenText as spec;

use crate::broken::Broken;
use np_addr::{Family, print_address};
use np_base::{NoMemory, Text};
use np_check::{Counterexample, PlaceEnd};
use np_fold::Folded;
use np_rules::said_text;
use std::alloc::Global;

/// The line of a broken statement: `line k: source => destination : PROTOCOL port : Allow`, or `Deny`, the verdict of the packet.
/// Its ends are workloads by their names, or addresses. Where both are workloads and the list has two families, the mark of the
/// packet's one follows the destination. No line feed ends it.
#[tactic(auto, unfolding(crate::specs::BrokenText::broken_text))]
pub fn print_broken(alloc: Global, folded: &Folded, broken: &Broken) -> Result<Text, NoMemory>
    requires { HasPlaces folded.now broken.now }
    ensures { IfOk result (λ text. text ≡ spec.broken_text folded.now broken.now) }
{
    let Broken {
        line,
        packet,
        allowed,
    } = *broken;
    let source = place_text(alloc, folded, packet.source)?;
    let destination = place_text(alloc, folded, packet.destination)?;
    let mark = mark_between(folded, &packet);
    let said = said_text(alloc, packet.spot, allowed)?;
    let text = format!(in alloc; "line {line}: {source} => {destination}{mark} : {said}")?;
    Ok(Text::from_string(text))
}

// An end of a packet.
fn place_text(alloc: Global, folded: &Folded, place: PlaceEnd) -> Result<Text, NoMemory>
    requires { IsPlace folded.now place }
    ensures { IfOk result (λ text. text ≡ spec.place_text folded.now place) }
{
    match place {
        PlaceEnd::Work(work) => Text::of(alloc, folded.workloads().name(work)),
        PlaceEnd::At(address) => print_address(alloc, address),
    }
}

// The mark of the family of a packet.
fn mark_between(folded: &Folded, packet: &Counterexample) -> &'static str
    ensures { result.now ≡ spec.mark_between folded.now packet.now.source packet.now.destination packet.now.family }
{
    match (packet.source, packet.destination) {
        (PlaceEnd::Work(_), PlaceEnd::Work(_)) => {
            family_mark(folded.estate().families(), packet.family)
        }
        _ => "",
    }
}

// The mark of a family, where there are both.
fn family_mark(families: &[Family], family: Family) -> &'static str
    ensures { result.now ≡ spec.family_mark families.now family }
{
    match (families, family) {
        ([_], _) => "",
        (_, Family::Four) => " (IPv4)",
        (_, Family::Six) => " (IPv6)",
    }
}
