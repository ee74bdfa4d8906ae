//! The ends that a form of a statement names.
ghost use Rattle.std.specs.Prelude.{◌≡◌, ◌<◌, IfOk, filter};
ghost use Rattle.std.specs.List.{range_with_len};
ghost use Rattle.np_fold.specs.Prelude.{folding_of, number_named};
ghost use Rattle.np_statements.specs.Prelude.{GivesEnds, IsWellForm};
ghost use Rattle.np_statements.specs.Ends as spec;
ghost use Rattle.np_kinds.specs.Prelude.{IsWorkload};

use crate::end_fault::EndFault;
use crate::statement_text::EndForm;
use np_addr::{AddrSet, cidr_set};
use np_base::{Cells, NoMemory, Seq, Text};
use np_check::Ends;
use np_fold::Folded;
use std::alloc::Global;

/// The ends of a form: `any pod` names all workloads, `any address` all addresses, `namespace` the workloads of that namespace,
/// none where no pod has it, `workload` the one of that name, and a block its addresses. `UnknownEnd` comes exactly where a form
/// names a workload that is not there.
#[tactic(auto, unfolding(crate::specs::Ends::ends_of))]
pub(crate) fn ends_of(alloc: Global, folded: &Folded, form: &EndForm) -> Result<Ends, EndFault>
    requires { IsWellForm form.now }
    ensures { GivesEnds result (spec.ends_of folded.now form.now) }
{
    match form {
        EndForm::Pods => Ok(any_pod(alloc, folded)?),
        EndForm::Addresses => Ok(addresses_alone(alloc, AddrSet::everything(alloc)?)),
        EndForm::Namespace(name) => Ok(works_alone(
            alloc,
            works_in(alloc, folded, name.as_str())?,
        )?),
        EndForm::Work(name) => named_alone(alloc, folded, name),
        EndForm::Block(cidr) => Ok(addresses_alone(alloc, cidr_set(alloc, cidr)?)),
    }
}

/// The ends of `any pod`: all workloads.
pub(crate) fn any_pod(alloc: Global, folded: &Folded) -> Result<Ends, NoMemory>
    ensures { IfOk result (λ made. made ≡ spec.works_alone (spec.all_works folded.now)) }
{
    works_alone(alloc, all_works(alloc, folded)?)
}

// Workloads, and no addresses.
fn works_alone(alloc: Global, works: Seq<u32>) -> Result<Ends, NoMemory>
    ensures { IfOk result (λ made. made ≡ spec.works_alone works) }
{
    Ok(Ends {
        works,
        block: AddrSet::nothing(alloc)?,
    })
}

// Addresses, and no workloads.
fn addresses_alone(alloc: Global, block: AddrSet) -> Ends
    ensures { result ≡ spec.addresses_alone block }
{
    Ends {
        works: Seq::new(alloc),
        block,
    }
}

// ---- workloads

// The numbers of all workloads.
fn all_works(alloc: Global, folded: &Folded) -> Result<Seq<u32>, NoMemory>
    ensures { IfOk result (λ made. made ≡ spec.all_works folded.now) }
{
    let works = 0..folded.workloads().count();
    Ok(Seq::from_vec(works.collect(alloc)?))
}

// The numbers of the workloads of a namespace.
fn works_in(alloc: Global, folded: &Folded, name: &str) -> Result<Seq<u32>, NoMemory>
    ensures { IfOk result (λ made. made
        ≡ filter (spec.is_work_in_namespace folded.now name.now) (spec.all_works folded.now)) }
{
    let mut works = Seq::new(alloc);
    for work in 0..folded.workloads().count() {
        if is_in_namespace(folded, name, work) {
            works.push(work)?;
        }
    }
    Ok(works)
}

// Whether a workload is of a namespace, which the first of its pods tells.
fn is_in_namespace(folded: &Folded, name: &str, work: u32) -> bool
    requires { IsWorkload folded.now work }
    ensures { result ≡ spec.is_work_in_namespace folded.now name.now work }
{
    let first = folded.workloads().members(work)[0];
    folded.estate().pods()[first as usize].namespace.as_str() == name
}

// The workload of a name alone.
fn named_alone(alloc: Global, folded: &Folded, name: &Text) -> Result<Ends, EndFault>
    ensures { GivesEnds result (spec.named_alone name.now (number_named (folding_of folded.now) name.now)) }
{
    let Some(work) = folded.workloads().by_name(name.as_str()) else {
        return Err(EndFault::UnknownEnd { name: name.copy()? });
    };
    let mut works = Seq::new(alloc);
    works.push(work)?;
    Ok(works_alone(alloc, works)?)
}
