//! The first pods of workloads, which stand for these.
ghost use Rattle.std.specs.Prelude.{◌≡◌, ◌<◌, IfOk, length};
ghost use Rattle.np_fold.specs.Prelude.{folding_of};
ghost use Rattle.np_kinds.specs.Prelude.{IsWorkload, source_pod};
ghost use Rattle.np_kinds.specs.Kinds as spec;
ghost use Rattle.np_model.specs.Prelude.{IsLawful};
ghost use Rattle.np_rules.specs.Prelude.{pod_end};

use np_base::NoMemory;
use np_fold::Folded;
use np_model::{Direction, Pod};
use np_rules::PodRules;
use std::alloc::Global;

/// The place of the first pod of a workload. The estate is lawful.
pub fn first_place(folded: &Folded, workload: u32) -> u32
    requires { IsWorkload folded.now workload }
    ensures value { result ≡ source_pod (folding_of folded.now) workload }
    ensures within { result < length folded.now.pods }
    ensures lawful { IsLawful folded.now }
{
    folded.workloads().members(workload)[0]
}

/// The first pod of a workload.
pub fn first_pod(folded: &Folded, workload: u32) -> &Pod
    requires { IsWorkload folded.now workload }
    ensures { pod_end result.now ≡ spec.first_end folded.now workload }
{
    let place = first_place(folded, workload);
    &folded.estate().pods()[place as usize]
}

/// The rules of the first pod of a workload in a direction.
pub fn first_side<'a>(
    alloc: Global,
    folded: &'a Folded,
    direction: Direction,
    workload: u32,
) -> Result<PodRules<'a>, NoMemory>
    requires { IsWorkload folded.now workload }
    ensures { IfOk result (λ made. made ≡ spec.first_side folded.now direction workload) }
{
    let place = first_place(folded, workload);
    PodRules::of(alloc, folded.estate(), place, direction)
}
