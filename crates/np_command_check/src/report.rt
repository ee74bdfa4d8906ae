//! `check`: whether the statements of a file hold.
ghost use Rattle.std.specs.Prelude.{◌≡◌, IfOk, IfSome, string_bytes};
ghost use Rattle.np_command.specs.Prelude.{Wrote, sunk, without_value};
ghost use Rattle.np_command_check.specs.Failures as failures;
ghost use Rattle.np_command_check.specs.Report as spec;
ghost use Rattle.np_statements.specs.Prelude.{HasPlaces};

use np_base::NoMemory;
use np_command::{Failure, Fault};
use np_fold::Folded;
use np_io::{Sink, write_whole};
use np_statements::{Broken, EndFault, FileFault, first_broken, print_broken, read_statements};
use std::alloc::Global;

/// Writes what is found of the statements of a file with these bytes: that all hold, or the first line whose statement does
/// not, with the first packet that breaks it. Answers whether all hold. `BadStatement` comes exactly where a line is no
/// statement, with the first such line, and `UnknownEnd` exactly where all are and one names a workload that is not there, with
/// the first such name. Both come before any statement is checked.
#[tactic(auto, using(crate::proofs::FoundLemmas::reply_found, crate::proofs::FoundLemmas::reply_unknown, crate::proofs::FoundLemmas::hold_found), unfolding(crate::specs::Report::check_reply, crate::specs::Report::all_hold, crate::specs::Report::asked_in))]
pub fn check_file<O: Sink>(
    alloc: Global,
    bytes: &[u8],
    folded: &Folded,
    out: &mut O,
) -> Result<bool, Failure>
    ensures wrote { Wrote (sunk O.taken O.faults out.old out.new)
        (spec.check_reply bytes.now folded.now)
        (without_value result) }
    ensures holds { IfOk result (λ holds. holds ≡ spec.all_hold bytes.now folded.now) }
{
    let statements = match read_statements(alloc, bytes) {
        Ok(statements) => statements,
        Err(fault) => return Err(file_failure(fault)),
    };
    let count = statements.items().len();
    let broken = match first_broken(alloc, folded, statements) {
        Ok(broken) => broken,
        Err(fault) => return Err(end_failure(fault)),
    };
    let line = finding(alloc, folded, count, &broken)?;
    write_whole(out, line.as_bytes())?;
    Ok(broken.is_none())
}

// The line that says what was found of so many statements.
fn finding(
    alloc: Global,
    folded: &Folded,
    count: usize,
    broken: &Option<Broken>,
) -> Result<String, NoMemory>
    requires { IfSome broken.now (HasPlaces folded.now) }
    ensures { IfOk result (λ line. string_bytes line ≡ spec.finding folded.now count broken.now) }
{
    match broken {
        Some(broken) => {
            let line = print_broken(alloc, folded, broken)?;
            Ok(format!(in alloc; "{line}\n")?)
        }
        None => Ok(format!(in alloc; "holds: {count}\n")?),
    }
}

// The failure of a file that gave no statements.
fn file_failure(fault: FileFault) -> Failure
    ensures { result ≡ failures.file_failure fault }
{
    match fault {
        FileFault::BadStatement { line } => Failure::Refused(Fault::BadStatement { line }),
        FileFault::NoMemory => Failure::NoMemory,
    }
}

// The failure of statements whose ends were not found.
fn end_failure(fault: EndFault) -> Failure
    ensures { result ≡ failures.end_failure fault }
{
    match fault {
        EndFault::UnknownEnd { name } => Failure::Refused(Fault::UnknownEnd { name }),
        EndFault::NoMemory => Failure::NoMemory,
    }
}
