//! What decides between two ends, at both sides of them, and what passes.
ghost use Rattle.std.specs.Prelude.{◌≡◌, ◌&&◌, false, true, IfOk};
ghost use Rattle.np_conns.specs.Prelude.{IsConns, has_spot, is_spot};
ghost use Rattle.np_conns.specs.declared.port_spot.PortSpot.{PortSpot};
ghost use Rattle.np_model.specs.Prelude.{IsLawful};
ghost use Rattle.np_explain.specs.Explanations as spec;
ghost use Rattle.np_explain.specs.Sides.{IsFamilyOf, are_one_pod};
ghost use Rattle.np_rules.specs.Prelude.{IsEndOf, decider_allows};

use crate::explaining::explain;
use crate::flow::Flow;
use crate::part::Part;
use np_base::{Cells, NoMemory, Seq};
use np_conns::ConnSet;
use np_model::{Direction, Estate};
use np_rules::Decider;
use std::alloc::Global;

/// What decides every packet of a family between two ends, at its source and at its destination, and the protocols and ports
/// at which packets are allowed.
pub struct Explanation {
    pub egress: Seq<Part>,
    pub ingress: Seq<Part>,
    pub conns: ConnSet,
}

// Written out, so that letting one go is one call.
impl Drop for Explanation {
    fn drop(self) {
        let Explanation {
            egress: _egress,
            ingress: _ingress,
            conns: _conns,
        } = self;
    }
}

/// The explanation of a flow. A packet is allowed where what decides at its source allows it, and what decides at its
/// destination does.
///
/// The ends are not one pod. Want of memory is the one refusal.
pub fn explain_sides(alloc: Global, estate: &Estate, flow: &Flow) -> Result<Explanation, NoMemory>
    requires lawful { IsLawful estate.now }
    requires source { IsEndOf estate.now flow.now.source }
    requires destination { IsEndOf estate.now flow.now.destination }
    requires apart { are_one_pod flow.now.source flow.now.destination ≡ false }
    requires family { IsFamilyOf flow.now.source flow.now.destination flow.now.family }
    ensures made { IfOk result (λ made. made ≡ spec.explanation_of estate.now flow.now.source flow.now.destination flow.now.family) }
    ensures right { IfOk result (spec.IsRightFor estate.now flow.now.source flow.now.destination flow.now.family) }
{
    let egress = explain(alloc, estate, flow, Direction::Egress)?;
    let ingress = explain(alloc, estate, flow, Direction::Ingress)?;
    let conns = allowed_by_both(alloc, egress.items(), ingress.items())?;
    Ok(Explanation {
        egress,
        ingress,
        conns,
    })
}

// The protocols and ports that parts of both sides allow.
fn allowed_by_both(alloc: Global, egress: &[Part], ingress: &[Part]) -> Result<ConnSet, NoMemory>
    ensures members { IfOk result (λ made. (spot : PortSpot) → is_spot spot ≡ true →
        has_spot made spot ≡ (spec.some_allows egress.now spot && spec.some_allows ingress.now spot)) }
    ensures well { IfOk result IsConns }
{
    let sent = allowed(alloc, egress)?;
    let received = allowed(alloc, ingress)?;
    sent.meet(&received)
}

// The protocols and ports of the parts that allow.
fn allowed(alloc: Global, parts: &[Part]) -> Result<ConnSet, NoMemory>
    ensures members { IfOk result (λ made. (spot : PortSpot) → has_spot made spot ≡ spec.some_allows parts.now spot) }
    ensures well { IfOk result IsConns }
{
    let mut set = ConnSet::nothing(alloc)?;
    for part in parts {
        if allows(&part.decider) {
            set = set.join(&part.conns)?;
        }
    }
    Ok(set)
}

// Whether what decides allows.
fn allows(decider: &Decider) -> bool
    ensures { result ≡ decider_allows decider.now }
{
    match decider {
        Decider::NoSide | Decider::Net { .. } | Decider::Free { .. } => true,
        Decider::Isolated { .. } => false,
        Decider::Admin { allow, .. } | Decider::Base { allow, .. } => *allow,
    }
}
