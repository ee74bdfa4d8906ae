//! The first line that does not hold.
ghost use Rattle.std.specs.Prelude.{◌≡◌, All, IfOk, IfSome, false};
ghost use Rattle.np_check.specs.Prelude.{complies, counterexample_of};
ghost use Rattle.np_statements.specs.Prelude.{GivesEnds, HasPlaces, IsAsked, IsQuestion, IsWellLine};
ghost use Rattle.np_statements.specs.BrokenLines as spec;

use crate::all_pods::CheckedKinds;
use crate::asked_line::AskedLine;
use crate::broken::Broken;
use crate::end_fault::EndFault;
use crate::find::{asked_of, unknown_name};
use crate::statement_line::StatementLine;
use np_base::{NoMemory, Seq};
use np_check::{Checker, Counterexample, Question, Statement, Wanted};
use np_fold::Folded;
use std::alloc::Global;

/// The first line whose statement does not hold, with the first packet that does not comply, in the order of `check`. `None`
/// exactly where all hold. `UnknownEnd` comes exactly where a statement names a workload that is not there, with the first such
/// name by lines, in a line that of the source first; no line is checked then. The ends of a line are kept while it is checked, and
/// the rules of workloads that were asked for are kept for the lines behind it. Statements of any pod and any pod are asked at once
/// first, and by themselves only where that finds one that does not hold.
pub fn first_broken(
    alloc: Global,
    folded: &Folded,
    statements: Seq<StatementLine>,
) -> Result<Option<Broken>, EndFault>
    requires { All IsWellLine statements }
    ensures first { GivesEnds result (spec.broken_among folded.now statements) }
    ensures places { IfOk result (λ made. IfSome made (HasPlaces folded.now)) }
{
    if let Some(name) = unknown_name(folded, statements.items()) {
        return Err(EndFault::UnknownEnd { name: name.copy()? });
    }
    let mut checker = Checker::new(alloc, folded);
    let settled = CheckedKinds::of(alloc, folded, &mut checker, statements.items())?;
    for line in statements.into_vec() {
        if settled.has(&line.statement) {
            continue;
        }
        let asked_line = asked_of(alloc, folded, line)?;
        let found = broken_of(&mut checker, asked_line)?;
        if found.is_some() {
            return Ok(found);
        }
    }
    Ok(None)
}

// How a line is broken, if it is.
fn broken_of(checker: &mut Checker<'_>, asked_line: AskedLine) -> Result<Option<Broken>, NoMemory>
    requires { IsAsked checker.old asked_line }
    ensures broken { IfOk result (λ made. made ≡ spec.broken_of checker.old asked_line) }
    ensures places { IfOk result (λ made. IfSome made (HasPlaces checker.old)) }
    ensures same { checker.new ≡ checker.old }
{
    let AskedLine { line, question } = asked_line;
    let allowed = broken_verdict(question.wanted);
    let Some(packet) = counterexample_of(checker, question)? else {
        return Ok(None);
    };
    Ok(Some(Broken {
        line,
        packet,
        allowed,
    }))
}

// The verdict of a packet that does not comply.
fn broken_verdict(wanted: Wanted) -> bool
    ensures { complies wanted result ≡ false }
{
    matches!(wanted, Wanted::Deny)
}

/// The first packet that does not comply with what is asked.
pub(crate) fn counterexample_of(
    checker: &mut Checker<'_>,
    question: Question,
) -> Result<Option<Counterexample>, NoMemory>
    requires { IsQuestion checker.old question }
    ensures counterexample { IfOk result (λ made. made ≡ counterexample_of checker.old question) }
    ensures same { checker.new ≡ checker.old }
{
    let statement = Statement::new(question);
    checker.check(&statement)
}
