//! Finding the ends of statements.
ghost use Rattle.std.specs.Prelude.{◌≡◌};
ghost use Rattle.np_statements.specs.Prelude.{GivesEnds, IsWellLine, TellsUnknown, ends_of};
ghost use Rattle.np_statements.specs.FoundEnds as spec;

use crate::asked_line::AskedLine;
use crate::end_fault::EndFault;
use crate::ends::ends_of;
use crate::statement_line::StatementLine;
use crate::statement_text::{EndForm, StatementText};
use np_base::Text;
use np_check::Question;
use np_fold::Folded;
use std::alloc::Global;

/// The first name in statements that no workload has: by lines, and in a line that of the source first.
pub(crate) fn unknown_name<'a>(folded: &Folded, statements: &'a [StatementLine]) -> Option<&'a Text>
    ensures { TellsUnknown result (spec.ends_found folded.now statements.now) }
{
    for line in statements {
        if let Some(name) = unknown_in_line(folded, line) {
            return Some(name);
        }
    }
    None
}

// The first name in a line that no workload has.
fn unknown_in_line<'a>(folded: &Folded, line: &'a StatementLine) -> Option<&'a Text>
    ensures { TellsUnknown result (spec.asked_line folded.now line.now) }
{
    let source = unknown_end(folded, &line.statement.source);
    source.or(unknown_end(folded, &line.statement.destination))
}

// The name of a form, where it is that of a workload that is not there.
#[tactic(auto, unfolding(crate::specs::Ends::ends_of))]
fn unknown_end<'a>(folded: &Folded, form: &'a EndForm) -> Option<&'a Text>
    ensures { TellsUnknown result (ends_of folded.now form.now) }
{
    match form {
        EndForm::Work(name) => match folded.workloads().by_name(name.as_str()) {
            Some(_) => None,
            None => Some(name),
        },
        EndForm::Pods | EndForm::Addresses | EndForm::Namespace(_) | EndForm::Block(_) => None,
    }
}

/// What the statement of a line asks. The ends of its source are found first.
#[tactic(auto, unfolding(crate::specs::FoundEnds::asked_line))]
pub(crate) fn asked_of(
    alloc: Global,
    folded: &Folded,
    line: StatementLine,
) -> Result<AskedLine, EndFault>
    requires { IsWellLine line }
    ensures { GivesEnds result (spec.asked_line folded.now line) }
{
    let StatementLine { line, statement } = line;
    let StatementText {
        wanted,
        source,
        destination,
        conns,
    } = statement;
    let source = ends_of(alloc, folded, &source)?;
    let destination = ends_of(alloc, folded, &destination)?;
    Ok(AskedLine {
        line,
        question: Question {
            wanted,
            source,
            destination,
            conns,
        },
    })
}
