//! Whether one packet is allowed.
ghost use Rattle.std.specs.Prelude.{◌≡◌, Option};
ghost use Rattle.std.specs.Option.{option_map};
ghost use Rattle.np_rules.specs.Prelude.{IsEndOf, PlacedAdminRule, PlacedBaseRule, allows, contact_view, end_allows, end_of, end_view, packet_of, pod_end, pod_view};
ghost use Rattle.np_rules.specs.model.Sides as spec;

use crate::admin_tier::admin_action;
use crate::base_tier::base_action;
use crate::layer_parts::is_allow;
use crate::near_ends::view_at;
use crate::net_tier::{is_isolated, permits};
use crate::packet::{End, Packet};
use crate::views::{ContactView, EndView, PodView, view_of_pod};
use np_conns::PortSpot;
use np_model::{Action, Direction, Estate};

/// Whether a packet is allowed: by the egress side of its source, if that is a pod, and by the ingress side of its
/// destination, if that is a pod. It takes no memory.
#[tactic(auto, unfolding(crate::specs::model::Verdict::allows))]
pub fn allows(estate: &Estate, packet: &Packet) -> bool
    requires source { IsEndOf estate.now packet.now.source }
    requires destination { IsEndOf estate.now packet.now.destination }
    ensures { result ≡ allows estate.now (packet_of estate.now packet.now) }
{
    end_allows(
        estate,
        Direction::Egress,
        packet.source,
        packet.destination,
        packet,
    ) && end_allows(
        estate,
        Direction::Ingress,
        packet.destination,
        packet.source,
        packet,
    )
}

// The end of a packet.
fn view_of_end(estate: &Estate, end: End) -> EndView<'_>
    requires { IsEndOf estate.now end }
    ensures { end_view result ≡ end_of estate.now end }
{
    match end {
        End::Pod(place) => EndView::Pod(view_of_pod(&estate.pods()[place as usize])),
        End::At(address) => EndView::At(address),
    }
}

// Whether the side of an end of a packet allows it, with the other end as its far end. An address has no side of its own.
fn end_allows(estate: &Estate, direction: Direction, near: End, far: End, packet: &Packet) -> bool
    requires near { IsEndOf estate.now near }
    requires far { IsEndOf estate.now far }
    requires destination { IsEndOf estate.now packet.now.destination }
    ensures { result ≡ end_allows estate.now direction (end_of estate.now near) (record {
      far = end_of estate.now far;
      destination = end_of estate.now packet.now.destination;
      family = packet.now.family;
      spot = record { proto = packet.now.proto; port = packet.now.port };
    }) }
{
    match near {
        End::Pod(place) => {
            let pod = view_at(estate, place);
            let contact = ContactView {
                far: view_of_end(estate, far),
                destination: view_of_end(estate, packet.destination),
                family: packet.family,
                spot: PortSpot {
                    proto: packet.proto,
                    port: packet.port,
                },
            };
            side_allows(estate, direction, &pod, &contact)
        }
        End::At(_) => true,
    }
}

// Whether a pod's side allows what it looks at.
#[tactic(auto, unfolding(crate::specs::model::Sides::side_allows))]
fn side_allows(
    estate: &Estate,
    direction: Direction,
    pod: &PodView<'_>,
    contact: &ContactView<'_>,
) -> bool
    ensures { result ≡ spec.side_allows estate.now direction (pod_view pod.now) (contact_view contact.now) }
{
    let admin = admin_action(estate.admin_policies(), direction, pod, contact);
    let isolated = is_isolated(estate.net_policies(), direction, pod);
    let permitted = permits(estate.net_policies(), direction, pod, contact);
    let base = base_action(estate.baseline(), direction, pod, contact);
    let below = if isolated { permitted } else { base_says(base) };
    admin_says(admin, below)
}

// What an admin rule says where one decides, and else the tiers below.
fn admin_says(action: Option<Action>, below: bool) -> bool
    ensures { (decider : Option PlacedAdminRule) → action ≡ option_map (λ placed. placed.rule.action) decider →
        result ≡ spec.admin_says decider below }
{
    match action {
        Some(Action::Allow) => true,
        Some(Action::Deny) => false,
        Some(Action::Pass) | None => below,
    }
}

// What a rule of the baseline says where one decides, and else that everything is allowed.
fn base_says(action: Option<Action>) -> bool
    ensures { (decider : Option PlacedBaseRule) → action ≡ option_map (λ placed. placed.rule.action) decider →
        result ≡ spec.base_says decider }
{
    match action {
        Some(action) => is_allow(action),
        None => true,
    }
}
