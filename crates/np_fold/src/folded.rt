//! An estate with its workloads.
ghost use Rattle.std.specs.Prelude.{◌≡◌, ◌<◌, ◌≤◌, ℕ, Err, IfOk, OnOk};
ghost use Rattle.np_model.specs.Prelude.{IsLawful};
ghost use Rattle.np_fold.specs.Workloads as spec;
ghost use Rattle.np_fold.specs.declared.fold_fault.FoldFault.TheVariants.{TooManyWorkloads};

use crate::fold_fault::FoldFault;
use crate::workloads::{MOST_WORKLOADS, Workloads};
use np_model::Estate;
use std::alloc::Global;
use std::marker::Model;

/// An estate with its workloads, which travel together. Contracts see it as the lists of the estate: they are lawful,
/// and the workloads are `folding_of` them.
pub struct Folded {
    estate: Estate,
    workloads: Workloads,
}

// Written out, so that letting one go is one call.
impl Drop for Folded {
    fn drop(self) {
        let Folded {
            estate: _estate,
            workloads: _workloads,
        } = self;
    }
}

impl Model for Folded {
    ghost use Rattle.std.specs.Prelude.{◌≡◌};
    ghost use Rattle.np_model.specs.declared.lists.EstateLists.{EstateLists};

    ghost Value = { EstateLists };

    ghost use Rattle.np_model.specs.Lawful.{IsLawful};
    ghost use Rattle.np_fold.specs.Workloads.{folding_of};

    ghost view = { λ f. f.estate };

    ghost invariant = { λ f. (IsLawful f.estate) × (f.workloads ≡ folding_of f.estate) };
}

impl Folded {
    /// An estate with its workloads. `TooManyWorkloads` comes exactly where there are more than 2,000, with their number.
    pub fn of(alloc: Global, estate: Estate) -> Result<Folded, FoldFault>
        requires { IsLawful estate }
        ensures folded { IfOk result (λ folded. folded ≡ estate) }
        ensures few { OnOk result (spec.workload_count estate ≤ MOST_WORKLOADS) }
        ensures many { (count : ℕ) → result ≡ Err (TooManyWorkloads count) →
            (MOST_WORKLOADS < spec.workload_count estate) × (count ≡ spec.workload_count estate) }
    {
        match Workloads::of(alloc, &estate) {
            Ok(workloads) => Ok(Folded { estate, workloads }),
            Err(fault) => Err(fault),
        }
    }

    /// The estate. It is lawful.
    pub fn estate(&self) -> &Estate
        ensures value { result.now ≡ self.now }
        ensures lawful { IsLawful self.now }
    {
        &self.estate
    }

    /// The workloads of the estate. The estate is lawful.
    pub fn workloads(&self) -> &Workloads
        ensures value { result.now ≡ spec.folding_of self.now }
        ensures lawful { IsLawful self.now }
    {
        &self.workloads
    }
}
