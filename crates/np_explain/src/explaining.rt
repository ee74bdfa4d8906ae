//! What decides every packet between two ends.
ghost use Rattle.std.specs.Prelude.{◌≡◌, ◌<◌, false, length, map, All, IfOk};
ghost use Rattle.np_conns.specs.Prelude.{has_spot, is_spot};
ghost use Rattle.np_model.specs.Prelude.{IsLawful};
ghost use Rattle.np_explain.specs.Prelude.{AreRightParts, IsFamilyAt, IsFamilyOf, IsMarkOf, are_one_pod, decider_between, decider_near, named_part, parts_of, placed_at, with_end};
ghost use Rattle.np_rules.specs.Prelude.{IsEndOf, IsSideLayer, decider, near_pod, pod};

use crate::flow::Flow;
use crate::order::first_number;
use crate::part::Part;
use crate::side::NamedSide;
use np_addr::Family;
use np_base::{Cells, NoMemory, Seq};
use np_conns::ConnSet;
use np_model::{Direction, Estate};
use np_rules::{Decider, End, PodRules};
use np_tiers::{Layer, Marked, carve};
use std::alloc::Global;

/// What decides every packet of a flow, at one side: with `Egress` at the source, with `Ingress` at the destination. There is
/// one part for each decider that decides some protocol and port, with exactly those that it decides, in the order of the
/// least of them: TCP, UDP, SCTP, and then by port. So the sets are disjoint, none is empty, and together they are all
/// protocols and ports. An address has no side: at one, a single part has everything.
///
/// The ends are not one pod. Want of memory is the one refusal.
pub fn explain(
    alloc: Global,
    estate: &Estate,
    flow: &Flow,
    direction: Direction,
) -> Result<Seq<Part>, NoMemory>
    requires lawful { IsLawful estate.now }
    requires source { IsEndOf estate.now flow.now.source }
    requires destination { IsEndOf estate.now flow.now.destination }
    requires apart { are_one_pod flow.now.source flow.now.destination ≡ false }
    requires family { IsFamilyOf flow.now.source flow.now.destination flow.now.family }
    ensures parts { IfOk result
        (AreRightParts (decider_between estate.now direction flow.now.source flow.now.destination flow.now.family)) }
    ensures list { IfOk result (λ parts.
        parts ≡ parts_of (decider_between estate.now direction flow.now.source flow.now.destination flow.now.family)) }
{
    match flow.near(direction) {
        End::Pod(pod) => pod_parts(alloc, estate, pod, flow, direction),
        End::At(_) => everything(alloc),
    }
}

// The one part at an end without a side.
fn everything(alloc: Global) -> Result<Seq<Part>, NoMemory>
    ensures { IfOk result (AreRightParts (λ _. Decider.NoSide)) }
{
    let conns = ConnSet::everything(alloc)?;
    let mut parts = Seq::new(alloc);
    parts.push(Part {
        decider: Decider::NoSide,
        conns,
    })?;
    Ok(parts)
}

// The parts at a pod, the near end of a flow at that side.
fn pod_parts(
    alloc: Global,
    estate: &Estate,
    pod: u32,
    flow: &Flow,
    direction: Direction,
) -> Result<Seq<Part>, NoMemory>
    requires lawful { IsLawful estate.now }
    requires pod { pod < length estate.now.pods }
    requires far { IsEndOf estate.now (placed_at direction flow.now.destination flow.now.source) }
    requires family { IsFamilyAt (placed_at direction flow.now.destination flow.now.source) flow.now.family }
    ensures { IfOk result (AreRightParts
        (decider_near estate.now direction (End.Pod pod) (placed_at direction flow.now.destination flow.now.source) flow.now.family)) }
{
    let rules = PodRules::of(alloc, estate, pod, direction)?;
    parts_with(alloc, &rules, flow.far(direction), flow.family)
}

// The parts of the rules that speak of a pod, with a far end.
fn parts_with(
    alloc: Global,
    rules: &PodRules<'_>,
    far: End,
    family: Family,
) -> Result<Seq<Part>, NoMemory>
    requires lawful { IsLawful rules.now.lists }
    requires far { IsEndOf rules.now.lists far }
    requires family { IsFamilyAt far family }
    ensures { IfOk result (AreRightParts (λ spot.
        decider rules.now.lists rules.now.direction (pod (near_pod rules.now)) (with_end far family rules.now spot))) }
{
    let layer = layer_with(alloc, rules, far, family)?;
    let side = NamedSide::of(alloc, rules, &layer)?;
    let entries = carve(alloc, &layer)?;
    let mut parts = named_parts(alloc, &side, entries)?;
    parts.sort_unstable_by_key(|part| first_number(&part.conns));
    Ok(Seq::from_vec(parts))
}

// The rules that speak of a pod, as sets of what they match with a far end.
fn layer_with(
    alloc: Global,
    rules: &PodRules<'_>,
    far: End,
    family: Family,
) -> Result<Layer<ConnSet>, NoMemory>
    requires far { IsEndOf rules.now.lists far }
    requires family { IsFamilyAt far family }
    ensures { IfOk result (IsSideLayer has_spot is_spot rules.now (with_end far family)) }
{
    match far {
        End::Pod(peer) => rules.pod_layer(alloc, peer, family),
        End::At(address) => rules.point_layer(alloc, address),
    }
}

// The carved sets, with what decides in place of their marks.
fn named_parts(
    alloc: Global,
    side: &NamedSide<'_, '_>,
    entries: Seq<Marked<ConnSet>>,
) -> Result<Vec<Part>, NoMemory>
    requires { All (λ entry. IsMarkOf side.now entry.mark) entries }
    ensures { IfOk result (λ parts. parts.items ≡ map (named_part side.now) entries) }
{
    let mut parts = Vec::new(alloc);
    for entry in entries.into_vec() {
        let Marked { mark, set } = entry;
        let decider = side.decider(alloc, mark)?;
        parts.push(Part {
            decider,
            conns: set,
        })?;
    }
    Ok(parts)
}
