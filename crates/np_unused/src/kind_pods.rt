//! Pods that stand for their kinds.
ghost use Rattle.std.specs.Prelude.{◌≡◌, ◌<◌, IfOk, length};
ghost use Rattle.np_unused.specs.steps.Kinds.{AreKindPods, AreKindPodsOf, pod_kind};

use np_base::NoMemory;
use np_fold::Folded;
use np_kinds::first_place;
use np_model::{Direction, Estate};
use np_reach::Reach;
use std::alloc::Global;

/// The first pod of the first workload of a kind, and whether the kind has another pod. No rule tells pods of one kind
/// apart, so that one of them stands for all.
#[derive(Drop)]
pub struct KindPod {
    pub pod: u32,
    pub is_shared: bool,
}

/// The kinds of workloads of a cluster in a direction: the pods that stand for them, and which of them the side of each may
/// let through at all.
#[derive(Clone, Copy)]
pub(crate) struct Kinds<'e, 'p> {
    pub alloc: Global,
    pub estate: &'e Estate,
    pub direction: Direction,
    pub pods: &'p [KindPod],
    pub reach: &'e Reach,
}

/// Such a pod for each kind of workloads, by the kind's number.
pub(crate) fn kind_pods(alloc: Global, folded: &Folded) -> Result<Vec<KindPod>, NoMemory>
    ensures { IfOk result (λ made. AreKindPods folded.now made.items) }
{
    let mut kinds = first_pods(alloc, folded)?;
    note_others(folded, &mut kinds);
    Ok(kinds)
}

// The first pod of each kind, as if no kind had another pod.
fn first_pods(alloc: Global, folded: &Folded) -> Result<Vec<KindPod>, NoMemory>
    ensures { IfOk result (λ made. AreKindPodsOf folded.now 0 made.items) }
{
    let workloads = folded.workloads();
    let mut kinds = Vec::new(alloc);
    for workload in workloads.first_of_kinds() {
        let pod = first_place(folded, *workload);
        kinds.push(KindPod {
            pod,
            is_shared: false,
        })?;
    }
    Ok(kinds)
}

// Notes which kinds have another pod than their first one, in one walk over all pods.
fn note_others(folded: &Folded, kinds: &mut [KindPod])
    requires { AreKindPodsOf folded.now 0 kinds.old }
    ensures { AreKindPods folded.now kinds.new }
{
    for pod in 0..pod_count(folded) {
        let kind = kind_of_pod(folded, pod) as usize;
        if kinds[kind].pod != pod {
            kinds[kind].is_shared = true;
        }
    }
}

// How many pods there are.
fn pod_count(folded: &Folded) -> u32
    ensures { result ≡ length folded.now.pods }
{
    folded.estate().pods().len() as u32
}

// The kind of the workload of a pod.
fn kind_of_pod(folded: &Folded, pod: u32) -> u32
    requires { pod < length folded.now.pods }
    ensures { result ≡ pod_kind folded.now pod }
{
    let workloads = folded.workloads();
    workloads.kind_of(workloads.workload_of(pod))
}
