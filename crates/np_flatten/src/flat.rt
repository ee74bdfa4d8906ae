//! The flat policies of an estate.
ghost use Rattle.std.specs.Prelude.{◌≡◌, ◌<◌, ◌^◌, ◌++◌, [], ◌∷◌, IfOk, OnOk, map};
ghost use Rattle.np_classes.specs.Classes.{places};
ghost use Rattle.np_flatten.specs.Flat as spec;
ghost use Rattle.np_flatten.specs.Groups.{first_of_group, group_count, group_firsts, group_of, relevant};
ghost use Rattle.np_flatten.specs.Ports.{ports_of};
ghost use Rattle.np_flatten.specs.steps.Next.{next_in};
ghost use Rattle.np_kinds.specs.Prelude.{IsWorkload, number_of_workloads};

use crate::address_rules::add_rules_of_addresses;
use crate::passing::Passing;
use crate::policy_parts::{
    flat_name, is_nothing, peer_like, ports_of, rule_to_everyone, selector_of,
};
use np_base::{NoMemory, Seq, Text};
use np_classes::Classes;
use np_conns::ConnSet;
use np_fold::Folded;
use np_kinds::first_pod;
use np_model::{Direction, NetPolicy, NetRule};
use std::marker::Model;

/// The flat policies of an estate, one for each group of workloads: those of one namespace whose pods have the same values of
/// all keys of labels that some selector names. Groups are numbered from 0 by the first workload of each. A policy is made when
/// it is asked for. Contracts see the lists of the estate.
pub struct Flat<'a> {
    passing: Passing<'a>,
    groups: Classes,
}

// Written out, so that letting one go is one call.
impl<'a> Drop for Flat<'a> {
    fn drop(self) {
        let Flat {
            passing: _passing,
            groups: _groups,
        } = self;
    }
}

impl<'a> Model for Flat<'a> {
    ghost use Rattle.std.specs.Prelude.{◌≡◌, ◌<◌, ◌^◌, map};
    ghost use Rattle.np_classes.specs.Classes.{places};
    ghost use Rattle.np_model.specs.declared.lists.EstateLists.{EstateLists};
    ghost use Rattle.np_flatten.specs.Groups.{group_firsts, group_of};
    ghost use Rattle.np_kinds.specs.Between.{number_of_workloads};

    ghost Value = { EstateLists };

    ghost view = { λ f. f.passing };

    ghost invariant = { λ f. (f.groups.firsts ≡ group_firsts f.passing)
        × (f.groups.numbers ≡ map (group_of f.passing) (places (number_of_workloads f.passing)))
        × (number_of_workloads f.passing < 2 ^ 32) };
}

impl<'a> Flat<'a> {
    // The flat policies by what passes in an estate and by its groups.
    pub(crate) fn of(passing: Passing<'a>, groups: Classes) -> Flat<'a>
        requires firsts { groups.firsts ≡ group_firsts passing }
        requires numbers { groups.numbers ≡ map (group_of passing) (places (number_of_workloads passing)) }
        requires few { number_of_workloads passing < 2 ^ 32 }
        ensures { result ≡ passing.entry }
    {
        Flat { passing, groups }
    }

    /// How many groups there are. It takes no memory.
    pub fn count(&self) -> u32
        ensures { result ≡ group_count self.now }
    {
        self.groups.firsts.items().len() as u32
    }

    /// The policy of a group, named `flat-` and its number. It selects the pods of the group, in both directions.
    ///
    /// As ingress it has a rule for each group of which some workload may send to one of this group, and then one for each
    /// range of addresses that may send to it, as the fewest blocks. As egress it has a rule of every pod, since what its pods
    /// may not send to others the others' ingress refuses, and then one for each range of addresses that it may send to.
    ///
    /// What was found of the rules is kept for the policies to come, which stay as they are.
    pub fn policy(&mut self, group: u32) -> Result<NetPolicy, NoMemory>
        requires { group < group_count self.old }
        ensures policy { IfOk result (λ policy. policy ≡ spec.flat_policy self.old group) }
        ensures same { self.new ≡ self.old }
    {
        let ingress = self.ingress_rules(group)?;
        let egress = self.egress_rules(group)?;
        let alloc = self.passing.alloc();
        let pod = first_pod(self.folded(), self.first(group));
        Ok(NetPolicy {
            namespace: pod.namespace.copy()?,
            name: flat_name(alloc, group)?,
            subject: selector_of(alloc, self.keys(), &pod.labels)?,
            ingress: Some(ingress),
            egress: Some(egress),
        })
    }

    // The ingress of a group: from groups, and then from addresses.
    fn ingress_rules(&mut self, group: u32) -> Result<Seq<NetRule>, NoMemory>
        requires { group < group_count self.old }
        ensures rules { IfOk result (λ made. made ≡ spec.ingress_rules self.old group) }
        ensures same { self.new ≡ self.old }
    {
        let mut rules = Seq::new(self.passing.alloc());
        for sender in 0..self.count() {
            self.add_rule_from(&mut rules, sender, group)?;
        }
        self.add_rules_of_addresses(&mut rules, group, Direction::Ingress)?;
        Ok(rules)
    }

    // The egress of a group: to every pod, and then to addresses.
    fn egress_rules(&mut self, group: u32) -> Result<Seq<NetRule>, NoMemory>
        requires { group < group_count self.old }
        ensures rules { IfOk result (λ made. made ≡ spec.egress_rules self.old group) }
        ensures same { self.new ≡ self.old }
    {
        let alloc = self.passing.alloc();
        let mut rules = Seq::new(alloc);
        rules.push(rule_to_everyone(alloc)?)?;
        self.add_rules_of_addresses(&mut rules, group, Direction::Egress)?;
        Ok(rules)
    }

    // Adds the rule from one group to another, where something may pass.
    fn add_rule_from(
        &mut self,
        rules: &mut Seq<NetRule>,
        sender: u32,
        group: u32,
    ) -> Result<(), NoMemory>
        requires sender { sender < group_count self.old }
        requires group { group < group_count self.old }
        ensures rules { OnOk result (rules.new ≡ rules.old ++ spec.rules_from_group self.old group sender) }
        ensures same { self.new ≡ self.old }
    {
        let Some(set) = self.set_from(sender, group)? else {
            return Ok(());
        };
        if is_nothing(&set) {
            return Ok(());
        }
        rules.push(self.rule_of(sender, &set)?)
    }

    // The rule that lets a set pass from the pods of a group.
    fn rule_of(&self, sender: u32, set: &ConnSet) -> Result<NetRule, NoMemory>
        requires { sender < group_count self.now }
        ensures { IfOk result (λ rule.
            rule ≡ record { peers = spec.group_peer self.now sender ∷ []; ports = ports_of set.now }) }
    {
        let alloc = self.passing.alloc();
        let pod = first_pod(self.folded(), self.first(sender));
        let mut peers = Seq::new(alloc);
        peers.push(peer_like(alloc, self.keys(), pod)?)?;
        let ports = ports_of(alloc, set)?;
        Ok(NetRule { peers, ports })
    }

    // What passes from one group to another. `None` exactly where both are one group of one pod.
    fn set_from(&mut self, sender: u32, group: u32) -> Result<Option<ConnSet>, NoMemory>
        requires sender { sender < group_count self.old }
        requires group { group < group_count self.old }
        ensures set { IfOk result (λ made. made ≡ spec.set_from self.old sender group) }
        ensures same { self.new ≡ self.old }
    {
        if sender == group {
            return self.set_within(group);
        }
        let source = self.first(sender);
        let destination = self.first(group);
        let set = self.passing.between(source, destination)?;
        Ok(Some(set))
    }

    // What passes from a group to itself: within its first workload, or where that has one pod to the next one.
    fn set_within(&mut self, group: u32) -> Result<Option<ConnSet>, NoMemory>
        requires { group < group_count self.old }
        ensures set { IfOk result (λ made. made ≡ spec.set_from self.old group group) }
        ensures same { self.new ≡ self.old }
    {
        let first = self.first(group);
        let within = self.passing.within(first)?;
        if within.is_some() {
            return Ok(within);
        }
        match self.next_like(first, group) {
            Some(next) => Ok(Some(self.passing.between(first, next)?)),
            None => Ok(None),
        }
    }

    // The first workload of a group behind one.
    fn next_like(&self, workload: u32, group: u32) -> Option<u32>
        requires { IsWorkload self.now workload }
        ensures { result ≡ next_in self.now workload group }
    {
        let numbers = self.groups.numbers.items();
        for other in workload + 1..numbers.len() as u32 {
            if numbers[other as usize] == group {
                return Some(other);
            }
        }
        None
    }

    // Adds the rules of the ranges of addresses of a group in a direction.
    fn add_rules_of_addresses(
        &mut self,
        rules: &mut Seq<NetRule>,
        group: u32,
        direction: Direction,
    ) -> Result<(), NoMemory>
        requires { group < group_count self.old }
        ensures rules { OnOk result
            (rules.new ≡ rules.old ++ spec.rules_of_addresses (spec.group_rows self.old group direction)) }
        ensures same { self.new ≡ self.old }
    {
        let alloc = self.passing.alloc();
        let first = self.first(group);
        let rows = self.passing.with_addresses(first, direction)?;
        add_rules_of_addresses(alloc, rules, rows.items())
    }

    // The first workload of a group.
    fn first(&self, group: u32) -> u32
        requires { group < group_count self.now }
        ensures value { result ≡ first_of_group self.now group }
        ensures within { IsWorkload self.now result }
    {
        self.groups.firsts.items()[group as usize]
    }

    // The estate with its workloads.
    fn folded(&self) -> &'a Folded
        ensures { result.now ≡ self.now }
    {
        self.passing.folded()
    }

    // The keys of labels that selectors name.
    fn keys(&self) -> &[Text]
        ensures { result.now ≡ relevant self.now }
    {
        self.passing.folded().workloads().relevant()
    }
}
