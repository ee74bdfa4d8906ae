//! Which TCP ports of a workload are reached through ingresses.
ghost use Rattle.std.specs.Prelude.{◌≡◌, ◌<◌, ◌≤◌, ◌+◌, ℕ, Contains, true, false, IfOk, IfSome, length};
ghost use Rattle.np_conns.specs.Prelude.{IsConns, conns_of, has_spot, is_spot};
ghost use Rattle.np_conns.specs.declared.port_spot.PortSpot.{PortSpot};
ghost use Rattle.np_model.specs.Prelude.{families_of};
ghost use Rattle.np_fold.specs.Prelude.{folding_of, members_of};
ghost use Rattle.np_model.specs.declared.direction.Direction.TheVariants.{Ingress};
ghost use Rattle.np_routes.specs.Controllers as spec;
ghost use Rattle.np_routes.specs.steps.Senders.{IsReceiver, reaches, send_steps};
ghost use Rattle.np_rules.specs.Prelude.{side_of};
ghost use Rattle.np_kinds.specs.Prelude.{IsWorkload};

use crate::backends::Backends;
use crate::senders::Sender;
use crate::targets::routed_set;
use np_base::{Cells, NoMemory, Steps};
use np_conns::ConnSet;
use np_fold::Folded;
use np_kinds::first_place;
use np_model::Direction;
use np_rules::PodRules;
use std::alloc::Global;
use std::marker::Model;
use std::sync::ledger::Ledger;

/// The routes of an estate's ingresses, and the controller that sends what comes through them: a workload, or one that is
/// not known. It finds once which services the backends name, and which rules speak of the controller. Contracts see the
/// lists of the estate and the controller's number.
pub struct Routes<'a> {
    folded: &'a Folded,
    controller: Option<u32>,
    backends: Backends<'a>,
    sender: Sender<'a>,
}

// Written out, so that letting one go is one call.
impl<'a> Drop for Routes<'a> {
    fn drop(self) {
        let Routes {
            folded: _folded,
            controller: _controller,
            backends: _backends,
            sender: _sender,
        } = self;
    }
}

impl<'a> Model for Routes<'a> {
    ghost use Rattle.std.specs.Prelude.{◌≡◌};
    ghost use Rattle.np_routes.specs.Controllers.{Routing};

    ghost Value = { Routing };

    ghost use Rattle.np_routes.specs.steps.Senders.{sender_for};

    ghost view = { λ r. record { lists = r.folded.now; controller = r.controller } };

    ghost invariant = { λ r. (r.backends ≡ r.folded.now) × (r.sender ≡ sender_for r.folded.now r.controller) };
}

impl<'a> Routes<'a> {
    /// The routes of an estate, and its controller: the workload of a number, or one that is not known.
    pub fn of(
        alloc: Global,
        folded: &'a Folded,
        controller: Option<u32>,
    ) -> Result<Routes<'a>, NoMemory>
        requires { IfSome controller (IsWorkload folded.now) }
        ensures lists { IfOk result (λ made. made.lists ≡ folded.now) }
        ensures controller { IfOk result (λ made. made.controller ≡ controller) }
    {
        let backends = Backends::of(alloc, folded.estate())?;
        let sender = Sender::of(alloc, folded, controller)?;
        Ok(Routes {
            folded,
            controller,
            backends,
            sender,
        })
    }

    /// The TCP ports of a workload, named by its number, that are reached through ingresses: those to which a route leads
    /// and to which the controller may send; the controller itself has none. They are those of every pod of the workload,
    /// since no service and no rule tells its pods apart. Where no route leads to it, no rule is looked at.
    pub fn ingress_set<L: Ledger>(
        &self,
        alloc: Global,
        workload: u32,
        steps: &mut Steps<L>,
    ) -> Result<ConnSet, NoMemory>
        requires { IsWorkload self.now.lists workload }
        ensures set { IfOk result (λ made. made
            ≡ conns_of (spec.ingress_allows self.now.lists (folding_of self.now.lists) self.now.controller workload)) }
        ensures every_pod { spec.is_controller self.now.controller workload ≡ false →
            IfOk result (λ made. (p : ℕ) (spot : PortSpot) →
            Contains (members_of (folding_of self.now.lists) workload) p → is_spot spot ≡ true →
            has_spot made spot ≡ spec.ingress_reaches self.now.lists
            (spec.sender_of (folding_of self.now.lists) self.now.controller) p spot) }
        ensures least { steps.old ≤ steps.new }
        ensures most { steps.new ≤ steps.old + spec.ingress_steps self.now.lists self.now.controller workload }
    {
        let place = first_place(self.folded, workload);
        if self.controller == Some(workload) {
            return ConnSet::nothing(alloc);
        }
        reached_set(alloc, &self.backends, &self.sender, place, steps)
    }
}

// The ports at which the pod at a place is reached: those to which routes lead and at which the sender may send to it. Where
// no route leads to it, no rule is looked at.
fn reached_set<L: Ledger>(
    alloc: Global,
    backends: &Backends<'_>,
    sender: &Sender<'_>,
    place: u32,
    steps: &mut Steps<L>,
) -> Result<ConnSet, NoMemory>
    requires place { place < length backends.now.pods }
    requires sender { IsReceiver sender.now (side_of backends.now place Ingress) }
    ensures members { IfOk result (λ made. (spot : PortSpot) → is_spot spot ≡ true →
        has_spot made spot ≡ reaches backends.now sender.now place spot) }
    ensures well { IfOk result IsConns }
    ensures least { steps.old ≤ steps.new }
    ensures most { steps.new ≤ steps.old
        + send_steps sender.now (side_of backends.now place Ingress) (families_of backends.now.pods) }
{
    let routed = routed_set(alloc, backends, place)?;
    if routed.is_empty() {
        return Ok(routed);
    }
    let estate = backends.estate();
    let receiver = PodRules::of(alloc, estate, place, Direction::Ingress)?;
    sender.count(&receiver, estate.families(), steps);
    let sent = sender.may_send(alloc, &receiver, estate.families())?;
    routed.meet(&sent)
}

/// The TCP ports of a workload that are reached through ingresses, from a controller that is a workload or one that is not
/// known: what `Routes` answers. Where several workloads are asked for, make the `Routes` once.
pub fn ingress_set<L: Ledger>(
    alloc: Global,
    folded: &Folded,
    controller: Option<u32>,
    workload: u32,
    steps: &mut Steps<L>,
) -> Result<ConnSet, NoMemory>
    requires controller { IfSome controller (IsWorkload folded.now) }
    requires workload { IsWorkload folded.now workload }
    ensures set { IfOk result (λ made. made
        ≡ conns_of (spec.ingress_allows folded.now (folding_of folded.now) controller workload)) }
    ensures every_pod { spec.is_controller controller workload ≡ false →
        IfOk result (λ made. (p : ℕ) (spot : PortSpot) →
        Contains (members_of (folding_of folded.now) workload) p → is_spot spot ≡ true →
        has_spot made spot ≡ spec.ingress_reaches folded.now (spec.sender_of (folding_of folded.now) controller) p spot) }
    ensures least { steps.old ≤ steps.new }
    ensures most { steps.new ≤ steps.old + spec.ingress_steps folded.now controller workload }
{
    let routes = Routes::of(alloc, folded, controller)?;
    routes.ingress_set(alloc, workload, steps)
}
