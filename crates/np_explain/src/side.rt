//! A pod's side: what decides where the walk of its layer ends.
ghost use Rattle.std.specs.Prelude.{◌≡◌, ◌<◌, length, IfOk, Some};
ghost use Rattle.std.specs.List.{slice_get};
ghost use Rattle.np_model.specs.Prelude.{IsFew};
ghost use Rattle.np_explain.specs.Marks.{IsMarkOf, IsPassOf, SaysActions, admin_rules, base_rules, mark_decider, net_rules, pass_name};
ghost use Rattle.np_rules.specs.Prelude.{PlacedAdminRule, PlacedBaseRule, PlacedNetRule, admin_rule_name, base_rule_name, is_allow, net_rule_name};

use crate::rule_names::{admin_rule_name, net_policy_names, net_rule_name};
use np_base::{NoMemory, Text};
use np_conns::ConnSet;
use np_rules::{Decider, LayerRules, PodRules, PolicyNames, RuleName, is_allow};
use np_tiers::{Layer, Mark};
use std::alloc::Global;
use std::marker::Model;

/// The rules that speak of a pod in a direction: what they say, by its layer, and how they are named. The names of the
/// NetworkPolicies that isolate the pod are held once, whatever number of deciders have them. Contracts see the estate's lists,
/// the pod's place among its pods, and the direction.
#[derive(Drop)]
pub(crate) struct NamedSide<'s, 'e> {
    side: &'s PodRules<'e>,
    layer: &'s Layer<ConnSet>,
    rules: LayerRules,
    isolating: PolicyNames,
}

impl<'s, 'e> Model for NamedSide<'s, 'e> {
    ghost use Rattle.np_explain.specs.Marks.{KeepsSide};
    ghost use Rattle.np_rules.specs.PodSides.{PodSide};

    ghost Value = { PodSide };

    ghost view = { λ s. s.side.now };

    ghost invariant = { λ s. KeepsSide s.side.now s.layer.now s.rules s.isolating };
}

impl<'s, 'e> NamedSide<'s, 'e> {
    /// The side whose rules these are, as one of its layers has them.
    pub(crate) fn of(
        alloc: Global,
        side: &'s PodRules<'e>,
        layer: &'s Layer<ConnSet>,
    ) -> Result<NamedSide<'s, 'e>, NoMemory>
        requires few { IsFew side.now.lists }
        requires says { SaysActions side.now layer.now }
        ensures { IfOk result (λ made. made ≡ side.now) }
    {
        let rules = side.names(alloc)?;
        let policies = side.estate().net_policies();
        let names = net_policy_names(alloc, policies, rules.isolating.items())?;
        let isolating = PolicyNames::of(alloc, names)?;
        Ok(NamedSide {
            side,
            layer,
            rules,
            isolating,
        })
    }

    /// What decides where a walk ends.
    pub(crate) fn decider(&self, alloc: Global, mark: Mark) -> Result<Decider, NoMemory>
        requires { IsMarkOf self.now mark }
        ensures { IfOk result (λ made. made ≡ mark_decider self.now mark) }
    {
        match mark {
            Mark::Admin { place } => {
                let rule = self.admin_rule(place)?;
                let allow = self.admin_allows(place);
                Ok(Decider::Admin { rule, allow })
            }
            Mark::Net { pass, place } => {
                let rule = self.net_rule(alloc, place)?;
                let pass = self.pass_rule(pass)?;
                Ok(Decider::Net { pass, rule })
            }
            Mark::Isolated { pass } => {
                let policies = self.isolating.share()?;
                let pass = self.pass_rule(pass)?;
                Ok(Decider::Isolated { pass, policies })
            }
            Mark::Base { pass, place } => {
                let rule = self.base_rule(alloc, place)?;
                let allow = self.base_allows(place);
                let pass = self.pass_rule(pass)?;
                Ok(Decider::Base { pass, rule, allow })
            }
            Mark::Free { pass } => {
                let pass = self.pass_rule(pass)?;
                Ok(Decider::Free { pass })
            }
        }
    }

    // The name of the admin rule with Pass that was met, where one was.
    fn pass_rule(&self, pass: Option<u64>) -> Result<Option<RuleName>, NoMemory>
        requires { IsPassOf self.now pass }
        ensures { IfOk result (λ name. name ≡ pass_name self.now pass) }
    {
        match pass {
            Some(place) => Ok(Some(self.admin_rule(place)?)),
            None => Ok(None),
        }
    }

    // The name of an admin rule.
    fn admin_rule(&self, place: u64) -> Result<RuleName, NoMemory>
        requires { place < length (admin_rules self.now) }
        ensures { IfOk result (λ name. (placed : PlacedAdminRule) →
            slice_get (admin_rules self.now) place ≡ Some placed → name ≡ admin_rule_name placed) }
    {
        let id = self.rules.admin.items()[place as usize];
        admin_rule_name(self.side.estate().admin_policies(), id)
    }

    // Whether an admin rule allows.
    fn admin_allows(&self, place: u64) -> bool
        requires { place < length (admin_rules self.now) }
        ensures { (placed : PlacedAdminRule) →
            slice_get (admin_rules self.now) place ≡ Some placed → result ≡ is_allow placed.rule.action }
    {
        is_allow(self.layer.admin.items()[place as usize].action)
    }

    // The name of a rule of a NetworkPolicy.
    fn net_rule(&self, alloc: Global, place: u64) -> Result<RuleName, NoMemory>
        requires { place < length (net_rules self.now) }
        ensures { IfOk result (λ name. (placed : PlacedNetRule) →
            slice_get (net_rules self.now) place ≡ Some placed → name ≡ net_rule_name placed) }
    {
        let id = self.rules.net.items()[place as usize];
        net_rule_name(alloc, self.side.estate().net_policies(), id)
    }

    // The name of a rule of the baseline.
    fn base_rule(&self, alloc: Global, place: u64) -> Result<RuleName, NoMemory>
        requires { place < length (base_rules self.now) }
        ensures { IfOk result (λ name. (placed : PlacedBaseRule) →
            slice_get (base_rules self.now) place ≡ Some placed → name ≡ base_rule_name placed) }
    {
        let place = self.rules.base.items()[place as usize].place;
        let policy = Text::of(alloc, "default")?;
        Ok(RuleName { policy, place })
    }

    // Whether a rule of the baseline allows.
    fn base_allows(&self, place: u64) -> bool
        requires { place < length (base_rules self.now) }
        ensures { (placed : PlacedBaseRule) →
            slice_get (base_rules self.now) place ≡ Some placed → result ≡ is_allow placed.rule.action }
    {
        self.layer.base.items()[place as usize].allow
    }
}
