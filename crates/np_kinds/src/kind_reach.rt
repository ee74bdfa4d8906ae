//! Which kinds of workloads may send anything to which.
ghost use Rattle.std.specs.Prelude.{◌≡◌, IfOk, false, map, not, slice_index, true};
ghost use Rattle.np_addr.specs.declared.address.Family.{Family};
ghost use Rattle.np_conns.specs.declared.port_spot.PortSpot.{PortSpot};
ghost use Rattle.np_model.specs.declared.lists.EstateLists.{EstateLists};
ghost use Rattle.np_fold.specs.Prelude.{folding_of};
ghost use Rattle.np_model.specs.declared.direction.Direction.TheVariants.{Egress, Ingress};
ghost use Rattle.np_reach.specs.Prelude.{reach_of};
ghost use Rattle.np_rules.specs.Prelude.{pod_end};
ghost use Rattle.np_kinds.specs.Between.{IsWorkload, pair_allows};
ghost use Rattle.np_kinds.specs.Kinds as spec;

use crate::first_pods::first_pod;
use np_base::NoMemory;
use np_fold::Folded;
use np_model::{Direction, Pod};
use np_reach::Reach;
use std::alloc::Global;

/// For each kind of workloads, by its number, which kinds it lets through at all, as it sends and as it receives. No rule
/// tells pods of one kind apart, so that the first pod of its first workload stands for all. What is not known may pass.
pub struct KindReach {
    pub sent: Reach,
    pub received: Reach,
}

// Written out, so that letting one go is one call.
impl Drop for KindReach {
    fn drop(self) {
        let KindReach {
            sent: _sent,
            received: _received,
        } = self;
    }
}

impl KindReach {
    /// Nothing is known, of whatever estate. It takes no memory.
    pub fn nothing(alloc: Global) -> KindReach
        ensures { (lists : EstateLists) → spec.IsKindReach lists result }
    {
        KindReach {
            sent: Reach::nothing(alloc),
            received: Reach::nothing(alloc),
        }
    }

    /// What the kinds of an estate let through.
    pub fn of(alloc: Global, folded: &Folded) -> Result<KindReach, NoMemory>
        ensures sent { IfOk result (λ made. made.sent ≡ reach_of folded.now Egress (spec.first_ends folded.now)) }
        ensures received { IfOk result (λ made. made.received ≡ reach_of folded.now Ingress (spec.first_ends folded.now)) }
        ensures right { IfOk result (spec.IsKindReach folded.now) }
    {
        let pods = first_pods(alloc, folded)?;
        let estate = folded.estate();
        let sent = Reach::of(alloc, estate, &pods, Direction::Egress)?;
        let received = Reach::of(alloc, estate, &pods, Direction::Ingress)?;
        Ok(KindReach { sent, received })
    }

    /// Whether it is known that nothing passes from a workload to another, by their kinds: the one lets the other through
    /// not at all as it sends, or the other the one as it receives.
    pub fn is_silent(&self, folded: &Folded, source: u32, destination: u32) -> bool
        requires reach { spec.IsKindReach folded.now self.now }
        requires source { IsWorkload folded.now source }
        requires destination { IsWorkload folded.now destination }
        ensures known { let kinds = (folding_of folded.now).kinds in
            result ≡ not (spec.may_pass self.now (slice_index kinds source) (slice_index kinds destination)) }
        ensures silent { result ≡ true → (family : Family) (spot : PortSpot) →
            pair_allows folded.now (folding_of folded.now) source destination family spot ≡ false }
    {
        let workloads = folded.workloads();
        let near = workloads.kind_of(source);
        let far = workloads.kind_of(destination);
        !self.may_pass(near, far)
    }

    // Whether anything may pass from a kind to another.
    fn may_pass(&self, near: u32, far: u32) -> bool
        ensures { result ≡ spec.may_pass self.now near far }
    {
        self.sent.may(near as usize, far as usize) && self.received.may(far as usize, near as usize)
    }
}

// The first pod of each kind.
fn first_pods(alloc: Global, folded: &Folded) -> Result<Vec<&Pod>, NoMemory>
    ensures { IfOk result (λ made. map (λ one. pod_end one.now) made.items
        ≡ map (spec.first_end folded.now) (folding_of folded.now).first_of_kinds) }
{
    let mut firsts = Vec::new(alloc);
    for workload in folded.workloads().first_of_kinds() {
        firsts.push(first_pod(folded, *workload))?;
    }
    Ok(firsts)
}
