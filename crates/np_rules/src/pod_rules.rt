//! The rules that speak of a pod.
ghost use Rattle.std.specs.Prelude.{◌≡◌, ◌+◌, ◌-◌, ◌^◌, ◌<◌, filter, length, map, true, Some, IfOk};
ghost use Rattle.std.specs.List.{slice_get};
ghost use Rattle.np_conns.specs.Prelude.{IsConns, has_spot, is_spot};
ghost use Rattle.np_conns.specs.declared.port_spot.PortSpot.{PortSpot};
ghost use Rattle.np_model.specs.Prelude.{IsFew};
ghost use Rattle.np_pieces.specs.Prelude.{Covers};
ghost use Rattle.np_rules.specs.EveryAddress.{AddressSpot, has_address_spot, is_address_spot};
ghost use Rattle.np_rules.specs.LayerRules as spec;
ghost use Rattle.np_rules.specs.Layers.{Pairwise};
ghost use Rattle.np_rules.specs.model.NetTier.{isolates};
ghost use Rattle.np_rules.specs.model.Places.{admin_places, base_places, net_places};
ghost use Rattle.np_rules.specs.PodSides.{IsSideLayer, KeepsRules, SaysVerdicts, near_pod, side_of, side_rule_count, with_addresses, with_pod, with_point, with_stranger};
ghost use Rattle.np_rules.specs.model.Sides.{side_allows};

use crate::address_rules::rules_of_addresses;
use crate::base_tier::base_rules_for;
use crate::every_address::{AddrConns, EveryAddress};
use crate::far_ends::FarEnds;
use crate::layer_parts::{admin_parts, base_parts, net_sets};
use crate::near_ends::{between, view_at};
use crate::net_union::net_union;
use crate::policy_rules::{
    PolicyRules, count_rules, isolating_policies, rules_of, selecting_policies,
};
use crate::rule_ids::{LayerRules, places_of, rule_ids};
use crate::rules_toward::{admin_rules_toward, net_rules_toward};
use crate::side_rules::SideRules;
use crate::stranger::Stranger;
use crate::views::{EndView, view_of_stranger};
use np_addr::{Address, Family, family_of};
use np_base::{Cells, NoMemory, Steps};
use np_conns::ConnSet;
use np_model::{AdminRule, Direction, Estate, NetRule};
use np_tiers::{Layer, verdict_set};
use std::alloc::Global;
use std::marker::Model;
use std::sync::ledger::Ledger;

/// The rules that speak of a pod in a direction, found once, to be looked at with any far end. They are kept policy by
/// policy. Contracts see the estate's lists, the pod's place among its pods, and the direction.
pub struct PodRules<'a> {
    estate: &'a Estate,
    pod: u32,
    direction: Direction,
    admin: Vec<PolicyRules<'a, AdminRule>>,
    net: Vec<PolicyRules<'a, NetRule>>,
    base: &'a [AdminRule],
}

// Written out, so that letting one go is one call.
impl<'a> Drop for PodRules<'a> {
    fn drop(self) {
        let PodRules {
            estate: _estate,
            pod: _pod,
            direction: _direction,
            admin: _admin,
            net: _net,
            base: _base,
        } = self;
    }
}

impl<'a> Model for PodRules<'a> {
    ghost use Rattle.np_rules.specs.PodSides.{PodSide, KeepsPolicies, side_of};

    ghost Value = { PodSide };

    ghost view = { λ r. side_of r.estate.now r.pod r.direction };

    ghost invariant = { λ r. KeepsPolicies (side_of r.estate.now r.pod r.direction) r.admin.items r.net.items r.base.now };
}

impl<'a> PodRules<'a> {
    /// The rules of the policies that select a pod, which is named by its place in the estate. Each policy is asked once.
    pub fn of(
        alloc: Global,
        estate: &'a Estate,
        pod: u32,
        direction: Direction,
    ) -> Result<PodRules<'a>, NoMemory>
        requires { pod < length estate.now.pods }
        ensures { IfOk result (λ made. made ≡ side_of estate.now pod direction) }
    {
        let near = view_at(estate, pod);
        let admin = selecting_policies(alloc, estate.admin_policies(), direction, &near)?;
        let net = isolating_policies(alloc, estate.net_policies(), direction, &near)?;
        let base = base_rules_for(estate.baseline(), direction, &near);
        Ok(PodRules {
            estate,
            pod,
            direction,
            admin,
            net,
            base,
        })
    }

    /// The estate.
    pub fn estate(&self) -> &'a Estate
        ensures { result.now ≡ self.now.lists }
    {
        self.estate
    }

    /// The pod's place in the estate.
    pub fn pod(&self) -> u32
        ensures value { result ≡ self.now.pod }
        ensures within { self.now.pod < length self.now.lists.pods }
    {
        self.pod
    }

    /// The rules by name, place by place those of the layers, and the NetworkPolicies that isolate the pod. No policy is
    /// asked again.
    pub fn names(&self, alloc: Global) -> Result<LayerRules, NoMemory>
        requires few { IsFew self.now.lists }
        ensures admin { IfOk result (λ rules. Pairwise (spec.NamesAdmin self.now.lists.admin_policies)
            rules.admin (admin_places self.now.lists.admin_policies self.now.direction (near_pod self.now))) }
        ensures net { IfOk result (λ rules. Pairwise (spec.NamesNet self.now.lists.net_policies)
            rules.net (net_places self.now.lists.net_policies self.now.direction (near_pod self.now))) }
        ensures isolating { IfOk result (λ rules.
            Pairwise (λ place policy. slice_get self.now.lists.net_policies place ≡ Some policy)
            rules.isolating (filter (isolates self.now.direction (near_pod self.now)) self.now.lists.net_policies)) }
        ensures base { IfOk result (λ rules. Pairwise spec.NamesBase
            rules.base (base_places self.now.lists.baseline self.now.direction (near_pod self.now))) }
    {
        let baseline = PolicyRules {
            place: 0,
            rules: self.base,
        };
        Ok(LayerRules {
            admin: rule_ids(alloc, &self.admin)?,
            net: rule_ids(alloc, &self.net)?,
            isolating: places_of(alloc, &self.net)?,
            base: rule_ids(alloc, &[baseline])?,
        })
    }

    /// Counts the rules, each once.
    pub fn count<L: Ledger>(&self, steps: &mut Steps<L>)
        ensures { steps.new ≡ steps.old + side_rule_count self.now }
    {
        count_rules(&self.admin, steps);
        count_rules(&self.net, steps);
        steps.add(self.base.len() as u64);
    }

    /// The rules as sets of the protocols and ports that they match with another pod as the far end, which is named by its
    /// place in the estate, in packets of a family.
    pub fn pod_layer(
        &self,
        alloc: Global,
        peer: u32,
        family: Family,
    ) -> Result<Layer<ConnSet>, NoMemory>
        requires { peer < length self.now.lists.pods }
        ensures layer { IfOk result (IsSideLayer has_spot is_spot self.now (with_pod peer family)) }
        ensures verdict { IfOk result (SaysVerdicts has_spot is_spot self.now (with_pod peer family)) }
    {
        let near = EndView::Pod(view_at(self.estate, self.pod));
        let far = EndView::Pod(view_at(self.estate, peer));
        let ends = between(self.direction, &near, &far, family);
        self.layer(alloc, &ends)
    }

    /// The rules as sets of the protocols and ports that they match with an address as the far end.
    pub fn point_layer(&self, alloc: Global, address: Address) -> Result<Layer<ConnSet>, NoMemory>
        ensures layer { IfOk result (IsSideLayer has_spot is_spot self.now (with_point address)) }
        ensures verdict { IfOk result (SaysVerdicts has_spot is_spot self.now (with_point address)) }
    {
        let point = &address;
        let near = EndView::Pod(view_at(self.estate, self.pod));
        let far = EndView::At(*point);
        let ends = between(self.direction, &near, &far, family_of(*point));
        self.layer(alloc, &ends)
    }

    /// The rules as sets of the protocols and ports that they match with a pod that nobody has written yet as the far end.
    /// It has no address, so the family of a packet changes nothing.
    pub fn stranger_layer(
        &self,
        alloc: Global,
        stranger: &Stranger,
    ) -> Result<Layer<ConnSet>, NoMemory>
        ensures layer { IfOk result (IsSideLayer has_spot is_spot self.now (with_stranger stranger.now)) }
        ensures verdict { IfOk result (SaysVerdicts has_spot is_spot self.now (with_stranger stranger.now)) }
    {
        let near = EndView::Pod(view_at(self.estate, self.pod));
        let far = EndView::Pod(view_of_stranger(stranger));
        let ends = between(self.direction, &near, &far, Family::Four);
        self.layer(alloc, &ends)
    }

    /// The rules as sets of what they match with all addresses of both families as far ends: addresses with protocols and
    /// ports. One evaluation of the layer gives the verdict at every address.
    pub fn address_layer(&self, alloc: Global) -> Result<Layer<AddrConns>, NoMemory>
        ensures layer { IfOk result (IsSideLayer has_address_spot is_address_spot self.now with_addresses) }
        ensures verdict { IfOk result (SaysVerdicts has_address_spot is_address_spot self.now with_addresses) }
    {
        let ends = EveryAddress {
            direction: self.direction,
            near: EndView::Pod(view_at(self.estate, self.pod)),
        };
        self.layer(alloc, &ends)
    }

    /// The protocols and ports that the side allows at each address of both families. Rules that match no address are passed
    /// over.
    pub fn address_set(&self, alloc: Global) -> Result<AddrConns, NoMemory>
        ensures members { IfOk result (λ made. (place : AddressSpot) → is_address_spot place ≡ true →
            has_address_spot made place
            ≡ side_allows self.now.lists self.now.direction (near_pod self.now) (with_addresses self.now place)) }
        ensures four { IfOk result (λ made. Covers (λ n. n) IsConns 0 (2 ^ 32 - 1) made.first) }
        ensures six { IfOk result (λ made. Covers (λ n. n) IsConns 0 (2 ^ 128 - 1) made.second) }
    {
        let rules = self.rules(alloc)?;
        let near = view_at(self.estate, self.pod);
        let ends = EveryAddress {
            direction: self.direction,
            near: EndView::Pod(view_at(self.estate, self.pod)),
        };
        let admin = rules_of_addresses(alloc, &rules.admin)?;
        let net = rules_of_addresses(alloc, &rules.net)?;
        let layer = Layer {
            admin: admin_parts(alloc, &admin, &ends)?,
            isolated: rules.isolated,
            net: net_union(alloc, near.namespace, &net, &ends)?,
            base: base_parts(alloc, rules.base, &ends)?,
        };
        let set = verdict_set(alloc, &layer)?;
        Ok(set)
    }

    /// The protocols and ports that the side allows with another pod as the far end, which is named by its place in the estate, in
    /// packets of a family. Rules whose peers do not match it are passed over.
    pub fn pod_set(&self, alloc: Global, peer: u32, family: Family) -> Result<ConnSet, NoMemory>
        requires { peer < length self.now.lists.pods }
        ensures members { IfOk result (λ made. (spot : PortSpot) → is_spot spot ≡ true →
            has_spot made spot
            ≡ side_allows self.now.lists self.now.direction (near_pod self.now) (with_pod peer family self.now spot)) }
        ensures well { IfOk result IsConns }
    {
        let rules = self.rules(alloc)?;
        let pod = view_at(self.estate, self.pod);
        let near = EndView::Pod(view_at(self.estate, self.pod));
        let far = EndView::Pod(view_at(self.estate, peer));
        let ends = between(self.direction, &near, &far, family);
        let admin = admin_rules_toward(alloc, &rules.admin, &far, family)?;
        let net = net_rules_toward(alloc, pod.namespace, &rules.net, &far)?;
        let layer = Layer {
            admin: admin_parts(alloc, &admin, &ends)?,
            isolated: rules.isolated,
            net: net_union(alloc, pod.namespace, &net, &ends)?,
            base: base_parts(alloc, rules.base, &ends)?,
        };
        let set = verdict_set(alloc, &layer)?;
        Ok(set)
    }

    /// The rules, one after another. Want of memory is the one refusal.
    pub fn rules(&self, alloc: Global) -> Result<SideRules<'a>, NoMemory>
        ensures { IfOk result (λ made. KeepsRules self.now (map (λ rule. rule.now) made.admin.items)
            made.isolated (map (λ rule. rule.now) made.net.items) made.base.now) }
    {
        Ok(SideRules {
            admin: rules_of(alloc, &self.admin)?,
            isolated: !self.net.is_empty(),
            net: rules_of(alloc, &self.net)?,
            base: self.base,
        })
    }

    // The rules as sets of what the spots stand for with these far ends.
    fn layer<S: Cells, F: FarEnds<S>>(&self, alloc: Global, far: &F) -> Result<Layer<S>, NoMemory>
        ensures layer { IfOk result (IsSideLayer S.has S.in_space self.now (λ _. F.contact_at far.now)) }
        ensures verdict { IfOk result (SaysVerdicts S.has S.in_space self.now (λ _. F.contact_at far.now)) }
    {
        let rules = self.rules(alloc)?;
        let near = view_at(self.estate, self.pod);
        let admin = admin_parts(alloc, &rules.admin, far)?;
        let net = net_sets(alloc, near.namespace, &rules.net, far)?;
        let base = base_parts(alloc, rules.base, far)?;
        Ok(Layer {
            admin,
            isolated: rules.isolated,
            net,
            base,
        })
    }
}
