//! The workloads of the list.
ghost use Rattle.std.specs.Prelude.{◌≡◌, length};

use np_fold::Workloads;

/// Whether the pod `c`, the third of the list, is the first workload, and the other two pods are the second, each of a kind of its own.
pub fn are_workloads_right(workloads: &Workloads) -> bool
    requires { length workloads.now.workloads ≡ 2 }
{
    workloads.name(0) == "default/c[Pod]"
        && workloads.members(0) == [2].as_slice()
        && workloads.name(1) == "default/db[StatefulSet]"
        && workloads.members(1) == [0, 1].as_slice()
        && workloads.first_of_kinds() == [0, 1].as_slice()
}
