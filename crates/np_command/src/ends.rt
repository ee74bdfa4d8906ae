//! Ends as words name them, and as they are printed.
ghost use Rattle.std.specs.Prelude.{◌≡◌, IfOk};
ghost use Rattle.np_command.specs.Prelude.{Gives};
ghost use Rattle.np_command.specs.Ends as spec;
ghost use Rattle.np_fold.specs.Prelude.{folding_of, number_named};
ghost use Rattle.np_kinds.specs.Prelude.{IsWorkload};

use crate::failure::Failure;
use crate::fault::Fault;
use np_addr::print_address;
use np_args::EndWord;
use np_base::{NoMemory, Text};
use np_fold::Folded;
use std::alloc::Global;

/// The workload of a name. `UnknownEnd` comes exactly where no workload has it.
#[tactic(auto, using(crate::proofs::EndLemmas::named_workload))]
pub fn workload_of(folded: &Folded, name: &Text) -> Result<u32, Failure>
    ensures named { Gives result (spec.or_unknown name.now (λ workload. workload) (number_named (folding_of folded.now) name.now)) }
    ensures workload { IfOk result (IsWorkload folded.now) }
{
    match folded.workloads().by_name(name.as_str()) {
        Some(workload) => Ok(workload),
        None => Err(Failure::Refused(Fault::UnknownEnd { name: name.copy()? })),
    }
}

/// An end as it is printed.
pub fn end_text(alloc: Global, word: &EndWord) -> Result<Text, NoMemory>
    ensures { IfOk result (λ text. text ≡ spec.end_text word.now) }
{
    match word {
        EndWord::At(address) => print_address(alloc, *address),
        EndWord::Named(name) => name.copy(),
    }
}
