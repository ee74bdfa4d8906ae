//! The rules that speak of a pod, for many pods that nobody has written yet.
ghost use Rattle.std.specs.Prelude.{◌≡◌, ◌<◌, length, map, IfOk};
ghost use Rattle.std.specs.List.{AllByRecursion, list_any};
ghost use Rattle.np_conns.specs.Prelude.{has_spot, is_spot};
ghost use Rattle.np_conns.specs.declared.port_spot.PortSpot.{PortSpot};
ghost use Rattle.np_rules.specs.model.Ends.{pod, stranger_end};
ghost use Rattle.np_rules.specs.PodSides.{SaysVerdicts, near_pod, side_of, with_stranger};
ghost use Rattle.np_rules.specs.StrangerRules.{ArePermitted, HasPorts, IsNetOf, kept_reaches, rule_of};
ghost use Rattle.np_rules.specs.Views.{end_view};

use crate::every_address::EveryAddress;
use crate::layer_parts::{admin_parts, base_parts};
use crate::near_ends::{between, view_at};
use crate::peers::net_peers_match;
use crate::pod_rules::PodRules;
use crate::rules_toward::admin_rules_toward;
use crate::stranger::Stranger;
use crate::views::{EndView, view_of_stranger};
use np_addr::Family;
use np_base::{Cells, NoMemory, Seq};
use np_conns::ConnSet;
use np_model::{AdminRule, Direction, Estate, NetRule};
use np_tiers::Layer;
use std::alloc::Global;
use std::marker::Model;

/// A rule of a NetworkPolicy, with the protocols and ports that its entries match.
#[derive(Drop)]
pub struct RuleConns<'a> {
    pub rule: &'a NetRule,
    pub conns: ConnSet,
}

impl<'a> RuleConns<'a> {
    /// Whether the peers of the rule, in a policy of this namespace, match a pod that nobody has written yet.
    pub fn reaches(&self, namespace: &str, stranger: &Stranger) -> bool
        ensures { result ≡ kept_reaches namespace.now (pod (stranger_end stranger.now)) self.now }
    {
        let far = EndView::Pod(view_of_stranger(stranger));
        net_peers_match(namespace, self.rule.peers.items(), &far)
    }
}

/// The rules that speak of a pod in a direction, found once, to be looked at with many pods that nobody has written yet.
/// Such a pod has no named ports, so that the protocols and ports of a rule of a NetworkPolicy are the same with each:
/// they are made once too. Contracts see the estate's lists, the pod's place among its pods, and the direction.
pub struct StrangerRules<'a> {
    estate: &'a Estate,
    pod: u32,
    direction: Direction,
    admin: Vec<&'a AdminRule>,
    isolated: bool,
    net: Vec<RuleConns<'a>>,
    base: &'a [AdminRule],
}

// Written out, so that letting one go is one call.
impl<'a> Drop for StrangerRules<'a> {
    fn drop(self) {
        let StrangerRules {
            estate: _estate,
            pod: _pod,
            direction: _direction,
            admin: _admin,
            isolated: _isolated,
            net: _net,
            base: _base,
        } = self;
    }
}

impl<'a> Model for StrangerRules<'a> {
    ghost use Rattle.std.specs.Prelude.{map};
    ghost use Rattle.np_rules.specs.PodSides.{KeepsRules, PodSide, side_of};
    ghost use Rattle.np_rules.specs.StrangerRules.{HavePorts, rule_of};

    ghost Value = { PodSide };

    ghost view = { λ r. side_of r.estate.now r.pod r.direction };

    ghost invariant = { λ r. KeepsRules (side_of r.estate.now r.pod r.direction) (map (λ rule. rule.now) r.admin.items)
        r.isolated (map rule_of r.net.items) r.base.now
        × HavePorts (side_of r.estate.now r.pod r.direction) r.net.items };
}

impl<'a> StrangerRules<'a> {
    /// The rules of the policies that select a pod, which is named by its place in the estate. Each policy is asked once.
    pub fn of(
        alloc: Global,
        estate: &'a Estate,
        pod: u32,
        direction: Direction,
    ) -> Result<StrangerRules<'a>, NoMemory>
        requires { pod < length estate.now.pods }
        ensures { IfOk result (λ made. made ≡ side_of estate.now pod direction) }
    {
        let rules = PodRules::of(alloc, estate, pod, direction)?.rules(alloc)?;
        let far = EveryAddress {
            direction,
            near: EndView::Pod(view_at(estate, pod)),
        };
        let net = rules_with_conns(alloc, &rules.net, &far)?;
        Ok(StrangerRules {
            estate,
            pod,
            direction,
            admin: rules.admin,
            isolated: rules.isolated,
            net,
            base: rules.base,
        })
    }

    /// The namespace of the pod, which is that of the NetworkPolicies that select it.
    pub fn namespace(&self) -> &str
        ensures { result.now ≡ (near_pod self.now).namespace }
    {
        view_at(self.estate, self.pod).namespace
    }

    /// The rules of the NetworkPolicies. Who asks all of them about such a pod, and joins the sets of those that reach it,
    /// has what the NetworkPolicies permit.
    pub fn net(&self) -> &[RuleConns<'a>]
        ensures { IsNetOf self.now result.now }
    {
        &self.net
    }

    /// The rules as sets of the protocols and ports that they match with such a pod as the far end, where `net` is what
    /// the NetworkPolicies permit. Admin rules whose peers do not match it are passed over.
    pub fn layer(
        &self,
        alloc: Global,
        stranger: &Stranger,
        net: ConnSet,
    ) -> Result<Layer<ConnSet>, NoMemory>
        requires { ArePermitted self.now stranger.now net }
        ensures verdict { IfOk result (SaysVerdicts has_spot is_spot self.now (with_stranger stranger.now)) }
    {
        let near = EndView::Pod(view_at(self.estate, self.pod));
        let far = EndView::Pod(view_of_stranger(stranger));
        let ends = between(self.direction, &near, &far, Family::Four);
        let toward = admin_rules_toward(alloc, &self.admin, &far, Family::Four)?;
        let admin = admin_parts(alloc, &toward, &ends)?;
        let base = base_parts(alloc, self.base, &ends)?;
        let mut sets = Seq::new(alloc);
        sets.push(net)?;
        Ok(Layer {
            admin,
            isolated: self.isolated,
            net: sets,
            base,
        })
    }
}

// The rules, each with what its port entries match where the far end is a stranger. That has no named ports, and nor has
// an address.
fn rules_with_conns<'a>(
    alloc: Global,
    rules: &[&'a NetRule],
    ends: &EveryAddress<'_>,
) -> Result<Vec<RuleConns<'a>>, NoMemory>
    ensures rules { IfOk result (λ made. map rule_of made.items ≡ map (λ rule. rule.now) rules.now) }
    ensures conns { IfOk result (λ made. AllByRecursion (HasPorts ends.now.direction (end_view ends.now.near)) made.items) }
{
    let mut made: Vec<RuleConns<'a>> = Vec::new(alloc);
    for rule in rules {
        let mut conns = ends.entries_set(alloc, rule.ports.items())?;
        conns.share_with(made.last().map(|rule| &rule.conns))?;
        made.push(RuleConns { rule, conns })?;
    }
    Ok(made)
}

/// The spots that some of the sets has. The sets of both halves are joined, so that n sets take time n log n.
pub fn joined_set(alloc: Global, sets: &[&ConnSet]) -> Result<ConnSet, NoMemory>
    ensures { IfOk result (λ made. (spot : PortSpot) → has_spot made spot ≡ list_any (λ set. has_spot set.now spot) sets.now) }
{
    match sets {
        [] => ConnSet::nothing(alloc),
        [set] => set.copy(),
        _ => {
            let (front, back) = sets.split_at(sets.len() / 2);
            let first = joined_set(alloc, front)?;
            let second = joined_set(alloc, back)?;
            first.join(&second)
        }
    }
}
