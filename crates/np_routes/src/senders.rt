//! The end that sends what comes through ingresses.
ghost use Rattle.std.specs.Prelude.{◌≡◌, ◌+◌, true, IfOk, IfSome};
ghost use Rattle.std.specs.List.{list_any};
ghost use Rattle.np_conns.specs.Prelude.{IsConns, has_spot, is_spot};
ghost use Rattle.np_conns.specs.declared.port_spot.PortSpot.{PortSpot};
ghost use Rattle.np_routes.specs.Controllers as controllers;
ghost use Rattle.np_routes.specs.steps.Senders as spec;
ghost use Rattle.np_table.specs.Prelude.{AreEnds};
ghost use Rattle.np_kinds.specs.Prelude.{IsWorkload, between_pods};

use np_addr::Family;
use np_base::{NoMemory, Seq, Steps, Text, join_all};
use np_conns::ConnSet;
use np_fold::Folded;
use np_kinds::first_side;
use np_labels::{Labels, Pair};
use np_model::Direction;
use np_rules::{PodRules, Stranger};
use np_table::{count_ends, set_between};
use np_tiers::verdict_set;
use std::alloc::Global;
use std::sync::ledger::Ledger;

/// The end that sends what comes through ingresses.
pub(crate) enum Sender<'a> {
    /// A pod, by the rules that speak of it as it sends.
    Pod(PodRules<'a>),
    /// A pod that is not known.
    Anyone(Stranger),
}

// Written out, so that letting one go is one call.
impl<'a> Drop for Sender<'a> {
    fn drop(self) {
        match self {
            Sender::Pod(_a) => {}
            Sender::Anyone(_a) => {}
        }
    }
}

impl<'a> Sender<'a> {
    /// The first pod of the controller where that is a workload, and else one that is not known.
    pub(crate) fn of(
        alloc: Global,
        folded: &'a Folded,
        controller: Option<u32>,
    ) -> Result<Sender<'a>, NoMemory>
        requires { IfSome controller (IsWorkload folded.now) }
        ensures { IfOk result (λ made. made ≡ spec.sender_for folded.now controller) }
    {
        let Some(workload) = controller else {
            return Ok(Sender::Anyone(any_controller(alloc)?));
        };
        let rules = first_side(alloc, folded, Direction::Egress, workload)?;
        Ok(Sender::Pod(rules))
    }

    /// The protocols and ports at which it may send to a pod, by the rules that speak of the pod as it receives: where it
    /// is a pod, in some of these families. No rule speaks of one that is not known, so the receiver's side alone decides.
    pub(crate) fn may_send(
        &self,
        alloc: Global,
        receiver: &PodRules<'_>,
        families: &[Family],
    ) -> Result<ConnSet, NoMemory>
        requires { spec.IsReceiver self.now receiver.now }
        ensures members { IfOk result (λ made. (spot : PortSpot) → is_spot spot ≡ true →
            has_spot made spot ≡ spec.sends self.now receiver.now families.now spot) }
        ensures well { IfOk result IsConns }
    {
        match self {
            Sender::Pod(sender) => sent_in_some(alloc, sender, receiver, families),
            Sender::Anyone(stranger) => sent_by_stranger(alloc, stranger, receiver),
        }
    }

    /// Counts the rules that `may_send` looks at: those of the receiver, and where the sender is a pod those of both, once
    /// for each of these families.
    pub(crate) fn count<L: Ledger>(
        &self,
        receiver: &PodRules<'_>,
        families: &[Family],
        steps: &mut Steps<L>,
    )
        ensures { steps.new ≡ steps.old + spec.send_steps self.now receiver.now families.now }
    {
        match self {
            Sender::Pod(sender) => count_ends(sender, receiver, families, steps),
            Sender::Anyone(_stranger) => receiver.count(steps),
        }
    }
}

// The protocols and ports at which a pod may send to another in some of these families.
fn sent_in_some(
    alloc: Global,
    sender: &PodRules<'_>,
    receiver: &PodRules<'_>,
    families: &[Family],
) -> Result<ConnSet, NoMemory>
    requires { AreEnds sender.now receiver.now }
    ensures members { IfOk result (λ made. (spot : PortSpot) → is_spot spot ≡ true → has_spot made spot
        ≡ list_any (λ family. between_pods sender.now.lists sender.now.pod receiver.now.pod family spot) families.now) }
    ensures well { IfOk result IsConns }
{
    let mut sets = Vec::new(alloc);
    for family in families {
        sets.push(set_between(alloc, sender, receiver, *family)?)?;
    }
    join_all(alloc, &sets)
}

// Those at which a pod that is not known may.
fn sent_by_stranger(
    alloc: Global,
    stranger: &Stranger,
    receiver: &PodRules<'_>,
) -> Result<ConnSet, NoMemory>
    ensures members { IfOk result (λ made. (spot : PortSpot) → is_spot spot ≡ true →
        has_spot made spot ≡ spec.receives stranger.now receiver.now spot) }
    ensures well { IfOk result IsConns }
{
    let layer = receiver.stranger_layer(alloc, stranger)?;
    verdict_set(alloc, &layer)
}

// The pod that stands for a controller that is not known: it has no labels, and its namespace has the empty name.
fn any_controller(alloc: Global) -> Result<Stranger, NoMemory>
    ensures { IfOk result (λ made. made ≡ controllers.any_controller) }
{
    let mut pairs = Seq::new(alloc);
    pairs.push(Pair {
        key: Text::of(alloc, "kubernetes.io/metadata.name")?,
        value: Text::of(alloc, "")?,
    })?;
    let namespace = Labels::of(alloc, pairs)?;
    let labels = Labels::of(alloc, Seq::new(alloc))?;
    Ok(Stranger { namespace, labels })
}
