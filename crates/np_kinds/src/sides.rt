//! The rules of the pods that stand for kinds of workloads.
ghost use Rattle.std.specs.Prelude.{◌≡◌, ◌<◌, IfOk, OnOk, Some, is_some, length, slice_index, true};
ghost use Rattle.np_conns.specs.Prelude.{IsConns, has_spot, is_spot};
ghost use Rattle.np_conns.specs.declared.port_spot.PortSpot.{PortSpot};
ghost use Rattle.np_fold.specs.Prelude.{folding_of};
ghost use Rattle.np_kinds.specs.Between.{IsWorkload};
ghost use Rattle.np_kinds.specs.Kinds.{AreKnown, KnowsMore, StayKnown, chosen, kind_side, known_at, knows, side_allows_pod};
ghost use Rattle.np_kinds.specs.Shared.{IsAlike};
ghost use Rattle.np_model.specs.Prelude.{IsLawful};
ghost use Rattle.np_model.specs.declared.direction.Direction.TheVariants.{Egress, Ingress};

use crate::first_pods::first_place;
use crate::shared_sets::SharedSets;
use crate::shared_side::SharedSide;
use np_addr::Family;
use np_base::NoMemory;
use np_conns::ConnSet;
use np_fold::Folded;
use np_model::Direction;
use np_rules::PodRules;
use std::alloc::Global;
use std::collections::HashMap;
use std::marker::Model;

/// The rules of the pods that stand for kinds of workloads, as they send and as they receive. No rule tells pods of one kind
/// apart, so that the first pod of a kind's first workload stands for all. The rules of a kind are found when they are first
/// asked for, and kept. Kinds that labels tell apart often have the same side all the same, since the same policies select
/// their pods: what a side allows with a far pod is found once for all of these. Contracts see the lists of the estate, and
/// of which workloads' kinds the rules are known.
pub struct Sides<'a> {
    alloc: Global,
    folded: &'a Folded,
    // By the numbers of kinds, as these send and as they receive.
    senders: HashMap<u32, SharedSide<'a>>,
    receivers: HashMap<u32, SharedSide<'a>>,
    // By the marks of sides, the first pod that was found with each.
    firsts: HashMap<u64, u32>,
    sets: SharedSets<'a>,
}

// Written out, so that letting one go is one call.
impl<'a> Drop for Sides<'a> {
    fn drop(self) {
        let Sides {
            alloc: _alloc,
            folded: _folded,
            senders: _senders,
            receivers: _receivers,
            firsts: _firsts,
            sets: _sets,
        } = self;
    }
}

impl<'a> Model for Sides<'a> {
    ghost use Rattle.std.specs.Prelude.{◌≡◌};
    ghost use Rattle.np_kinds.specs.Kinds.{AreKnown, KnownSides};
    ghost use Rattle.np_model.specs.declared.direction.Direction.TheVariants.{Egress, Ingress};

    ghost Value = { KnownSides };

    ghost view = { λ s. record { lists = s.folded.now; senders = s.senders.entries; receivers = s.receivers.entries } };

    ghost invariant = { λ s. AreKnown s.folded.now Egress s.senders.entries × AreKnown s.folded.now Ingress s.receivers.entries
        × (s.sets ≡ s.folded.now) };
}

impl<'a> Sides<'a> {
    /// No rules are known. It takes no memory.
    pub fn new(alloc: Global, folded: &'a Folded) -> Sides<'a>
        ensures { result.lists ≡ folded.now }
    {
        Sides {
            alloc,
            folded,
            senders: HashMap::new(alloc),
            receivers: HashMap::new(alloc),
            firsts: HashMap::new(alloc),
            sets: SharedSets::new(alloc, folded.estate()),
        }
    }

    /// The estate with its workloads.
    pub fn folded(&self) -> &'a Folded
        ensures { result.now ≡ self.now.lists }
    {
        self.folded
    }

    /// Finds the rules of a workload's kind in a direction, unless they are known. On `NoMemory` what was known is known.
    pub fn ask(&mut self, direction: Direction, workload: u32) -> Result<(), NoMemory>
        requires { IsWorkload self.old.lists workload }
        ensures known { OnOk result (knows self.new direction workload ≡ true) }
        ensures more { KnowsMore self.old self.new }
    {
        let alloc = self.alloc;
        let folded = self.folded;
        let firsts = &mut self.firsts;
        match direction {
            Direction::Egress => find(
                alloc,
                folded,
                direction,
                workload,
                firsts,
                &mut self.senders,
            ),
            Direction::Ingress => {
                find(
                    alloc,
                    folded,
                    direction,
                    workload,
                    firsts,
                    &mut self.receivers,
                )
            }
        }
    }

    /// The same for two workloads, of the one as it sends and of the other as it receives.
    pub fn ask_pair(&mut self, source: u32, destination: u32) -> Result<(), NoMemory>
        requires source { IsWorkload self.old.lists source }
        requires destination { IsWorkload self.old.lists destination }
        ensures sender { OnOk result (knows self.new Egress source ≡ true) }
        ensures receiver { OnOk result (knows self.new Ingress destination ≡ true) }
        ensures more { KnowsMore self.old self.new }
    {
        self.ask(Direction::Egress, source)?;
        self.ask(Direction::Ingress, destination)
    }

    /// The rules of a workload's kind in a direction, which were asked for. The lists of the estate are lawful.
    pub fn at(&self, direction: Direction, workload: u32) -> &PodRules<'a>
        requires workload { IsWorkload self.now.lists workload }
        requires known { knows self.now direction workload ≡ true }
        ensures side { result.now ≡ kind_side self.now.lists direction workload }
        ensures lawful { IsLawful self.now.lists }
    {
        let kind = self.folded.workloads().kind_of(workload);
        let sides = match direction {
            Direction::Egress => &self.senders,
            Direction::Ingress => &self.receivers,
        };
        sides.get(&kind).unwrap().rules()
    }

    /// A pod, by its place in the estate, that allows with every far end what the rules of a workload's kind in a direction allow,
    /// which were asked for: mostly the first pod that was found with the same side.
    pub fn like(&self, direction: Direction, workload: u32) -> u32
        requires workload { IsWorkload self.now.lists workload }
        requires known { knows self.now direction workload ≡ true }
        ensures like { IsAlike (kind_side self.now.lists direction workload) result }
        ensures lawful { IsLawful self.now.lists }
    {
        let kind = self.folded.workloads().kind_of(workload);
        side_at(&self.senders, &self.receivers, direction, kind).like()
    }

    /// The protocols and ports that the rules of a workload's kind in a direction, which were asked for, allow with another pod
    /// as the far end, which is named by its place in the estate, in packets of a family. The answer is kept, while there is
    /// room, for all kinds with the same side. `NoMemory` comes where there is none for the answer, or to keep it.
    pub fn pod_set(
        &mut self,
        direction: Direction,
        workload: u32,
        peer: u32,
        family: Family,
    ) -> Result<ConnSet, NoMemory>
        requires workload { IsWorkload self.old.lists workload }
        requires known { knows self.old direction workload ≡ true }
        requires peer { peer < length self.old.lists.pods }
        ensures members { IfOk result (λ made. (spot : PortSpot) → is_spot spot ≡ true →
            has_spot made spot ≡ side_allows_pod (kind_side self.old.lists direction workload) peer family spot) }
        ensures well { IfOk result IsConns }
        ensures more { KnowsMore self.old self.new }
    {
        let kind = self.folded.workloads().kind_of(workload);
        let side = side_at(&self.senders, &self.receivers, direction, kind);
        side.pod_set(self.alloc, peer, family, &mut self.sets)
    }
}

// The side of a kind in a direction, which is known.
fn side_at<'s, 'a>(
    senders: &'s HashMap<u32, SharedSide<'a>>,
    receivers: &'s HashMap<u32, SharedSide<'a>>,
    direction: Direction,
    kind: u32,
) -> &'s SharedSide<'a>
    requires { is_some (known_at (chosen direction senders.now.entries receivers.now.entries) kind) ≡ true }
    ensures { known_at (chosen direction senders.now.entries receivers.now.entries) kind ≡ Some result.now }
{
    let sides = match direction {
        Direction::Egress => senders,
        Direction::Ingress => receivers,
    };
    sides.get(&kind).unwrap()
}

// Finds the rules of a workload's kind in a direction, unless they are known.
fn find<'a>(
    alloc: Global,
    folded: &'a Folded,
    direction: Direction,
    workload: u32,
    firsts: &mut HashMap<u64, u32>,
    sides: &mut HashMap<u32, SharedSide<'a>>,
) -> Result<(), NoMemory>
    requires workload { IsWorkload folded.now workload }
    requires known { AreKnown folded.now direction sides.old.entries }
    ensures there { OnOk result
        (is_some (known_at sides.new.entries (slice_index (folding_of folded.now).kinds workload)) ≡ true) }
    ensures more { StayKnown sides.old.entries sides.new.entries }
    ensures known { AreKnown folded.now direction sides.new.entries }
{
    let workloads = folded.workloads();
    let kind = workloads.kind_of(workload);
    if sides.contains_key(&kind) {
        return Ok(());
    }
    let first = workloads.first_of_kinds()[kind as usize];
    let place = first_place(folded, first);
    let side = SharedSide::of(alloc, folded.estate(), place, direction, firsts)?;
    sides.insert(kind, side)?;
    Ok(())
}
