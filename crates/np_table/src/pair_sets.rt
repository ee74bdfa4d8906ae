//! What passes between two pods, and so between two workloads.
ghost use Rattle.std.specs.Prelude.{◌≡◌, ◌≢◌, ◌<◌, ◌+◌, ◌*◌, ℕ, if◌then◌else◌, None, Some, Contains, false, length, true, IfOk, IfSome};
ghost use Rattle.np_conns.specs.Prelude.{conns_of, has_spot, is_spot};
ghost use Rattle.np_conns.specs.declared.port_spot.PortSpot.{PortSpot};
ghost use Rattle.np_model.specs.Prelude.{IsLawful};
ghost use Rattle.np_fold.specs.Prelude.{folding_of, members_of};
ghost use Rattle.np_rules.specs.Prelude.{side_rule_count};
ghost use Rattle.np_kinds.specs.Between as spec;
ghost use Rattle.np_kinds.specs.Kinds.{KnowsMore};
ghost use Rattle.np_table.specs.PairRules as rules;
ghost use Rattle.np_table.specs.steps.PairSides.{KnowsPair, conns_of_kinds, ends_of};

use np_addr::Family;
use np_base::{Cells, NoMemory, Steps};
use np_conns::ConnSet;
use np_fold::{Folded, Workloads};
use np_kinds::Sides;
use np_model::Direction;
use np_rules::PodRules;
use std::alloc::Global;
use std::sync::ledger::Ledger;

/// The protocols and ports at which packets of a family are allowed between two workloads, named by their numbers: those
/// that the egress side of the source and the ingress side of the destination both allow. `None` comes exactly where both
/// are one workload of one pod. It holds for every two different pods of the two workloads, since no rule tells the pods
/// of a workload apart.
pub fn pair_set(
    alloc: Global,
    folded: &Folded,
    source: u32,
    destination: u32,
    family: Family,
) -> Result<Option<ConnSet>, NoMemory>
    requires source { spec.IsWorkload folded.now source }
    requires destination { spec.IsWorkload folded.now destination }
    ensures set { IfOk result (λ made. made ≡ (if spec.is_alone (folding_of folded.now) source destination then None
        else Some (conns_of (spec.pair_allows folded.now (folding_of folded.now) source destination family)))) }
    ensures every_pod { IfOk result (λ made. IfSome made (λ set. (p q : ℕ) (spot : PortSpot) →
        Contains (members_of (folding_of folded.now) source) p → Contains (members_of (folding_of folded.now) destination) q →
        p ≢ q → is_spot spot ≡ true → has_spot set spot ≡ spec.between_pods folded.now p q family spot)) }
{
    let Some(ends) = rules_of_pair(alloc, folded, source, destination)? else {
        return Ok(None);
    };
    let set = set_between(alloc, &ends.sender, &ends.receiver, family)?;
    Ok(Some(set))
}

/// The protocols and ports that pass from a workload to another in packets of a family, by the rules of the pods that stand
/// for their kinds, which are found unless they are known. It is right of a workload with itself, too, where that has two
/// pods.
pub fn set_by_kinds(
    sides: &mut Sides<'_>,
    source: u32,
    destination: u32,
    family: Family,
) -> Result<ConnSet, NoMemory>
    requires source { spec.IsWorkload sides.old.lists source }
    requires destination { spec.IsWorkload sides.old.lists destination }
    requires apart { spec.is_alone (folding_of sides.old.lists) source destination ≡ false }
    ensures set { IfOk result (λ made. made
        ≡ conns_of (spec.pair_allows sides.old.lists (folding_of sides.old.lists) source destination family)) }
    ensures lists { sides.new.lists ≡ sides.old.lists }
{
    sides.ask_pair(source, destination)?;
    set_of_kinds(sides, source, destination, family)
}

/// The same where the rules of both kinds are known, of the pods that stand for these. What a side allows with a far pod is
/// found once for all sides that are the same. As in `set_between`, the receiver's side is asked first.
pub(crate) fn set_of_kinds(
    sides: &mut Sides<'_>,
    source: u32,
    destination: u32,
    family: Family,
) -> Result<ConnSet, NoMemory>
    requires { KnowsPair sides.old source destination }
    ensures set { IfOk result (λ made. made ≡ conns_of_kinds sides.old.lists source destination family) }
    ensures more { KnowsMore sides.old sides.new }
    ensures lawful { IsLawful sides.old.lists }
{
    let sender = sides.at(Direction::Egress, source).pod();
    let receiver = sides.at(Direction::Ingress, destination).pod();
    let received = sides.pod_set(Direction::Ingress, destination, sender, family)?;
    if received.is_empty() {
        return Ok(received);
    }
    let sent = sides.pod_set(Direction::Egress, source, receiver, family)?;
    sent.meet(&received)
}

/// The rules of a pod that sends, and those of one that receives.
pub(crate) struct PairEnds<'a> {
    pub sender: PodRules<'a>,
    pub receiver: PodRules<'a>,
}

// Written out, so that letting one go is one call.
impl<'a> Drop for PairEnds<'a> {
    fn drop(self) {
        let PairEnds {
            sender: _sender,
            receiver: _receiver,
        } = self;
    }
}

/// The rules of the pods that stand for two workloads. `None` exactly where a workload of one pod meets itself.
pub(crate) fn rules_of_pair<'a>(
    alloc: Global,
    folded: &'a Folded,
    source: u32,
    destination: u32,
) -> Result<Option<PairEnds<'a>>, NoMemory>
    requires source { spec.IsWorkload folded.now source }
    requires destination { spec.IsWorkload folded.now destination }
    ensures ends { IfOk result (λ made. made ≡ (if spec.is_alone (folding_of folded.now) source destination then None
        else Some (ends_of folded.now source destination))) }
    ensures lawful { IsLawful folded.now }
{
    let estate = folded.estate();
    let workloads = folded.workloads();
    let Some(far) = far_pod(workloads, source, destination) else {
        return Ok(None);
    };
    let near = workloads.members(source)[0];
    let sender = PodRules::of(alloc, estate, near, Direction::Egress)?;
    let receiver = PodRules::of(alloc, estate, far, Direction::Ingress)?;
    Ok(Some(PairEnds { sender, receiver }))
}

// The pod that stands for the destination. `None` exactly where a workload of one pod meets itself.
fn far_pod(workloads: &Workloads, source: u32, destination: u32) -> Option<u32>
    requires destination { destination < length workloads.now.workloads }
    requires some { 0 < length (members_of workloads.now destination) }
    ensures { result ≡ (if spec.is_alone workloads.now source destination then None
        else Some (spec.destination_pod workloads.now source destination)) }
{
    let members = workloads.members(destination);
    if source != destination {
        return Some(members[0]);
    }
    if members.len() == 1 {
        return None;
    }
    Some(members[1])
}

/// The protocols and ports at which packets of a family are allowed between two pods, by their rules: those that the egress
/// side of the sender and the ingress side of the receiver both allow. The receiver's side is asked first, since it is the
/// one that most often allows nothing, and then the sender's is not asked.
pub fn set_between(
    alloc: Global,
    sender: &PodRules<'_>,
    receiver: &PodRules<'_>,
    family: Family,
) -> Result<ConnSet, NoMemory>
    requires { rules.AreEnds sender.now receiver.now }
    ensures { IfOk result (λ made. made
        ≡ conns_of (spec.between_pods sender.now.lists sender.now.pod receiver.now.pod family)) }
{
    let received = receiver.pod_set(alloc, sender.pod(), family)?;
    if received.is_empty() {
        return Ok(received);
    }
    let sent = sender.pod_set(alloc, receiver.pod(), family)?;
    sent.meet(&received)
}

/// Counts the rules of two pods, once for each family of the list, as `set_between` looks at them.
pub fn count_ends<L: Ledger>(
    sender: &PodRules<'_>,
    receiver: &PodRules<'_>,
    families: &[Family],
    steps: &mut Steps<L>,
)
    ensures { steps.new
        ≡ steps.old + length families.now * (side_rule_count sender.now + side_rule_count receiver.now) }
{
    for _family in families {
        sender.count(steps);
        receiver.count(steps);
    }
}
