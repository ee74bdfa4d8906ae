//! Statements of any pod and any pod, asked at once.
ghost use Rattle.std.specs.Prelude.{◌≡◌, true, All, IfOk};
ghost use Rattle.std.specs.List.{list_any};
ghost use Rattle.np_conns.specs.Prelude.{has_spot};
ghost use Rattle.np_conns.specs.declared.port_spot.PortSpot.{PortSpot};
ghost use Rattle.np_statements.specs.AllPods as spec;
ghost use Rattle.np_statements.specs.AllPods.{AreSettled, HoldsOfPods};

use crate::checking::counterexample_of;
use crate::ends::any_pod;
use crate::statement_line::StatementLine;
use crate::statement_text::{EndForm, StatementText};
use np_base::{Cells, NoMemory};
use np_check::{Checker, Question, Wanted};
use np_conns::ConnSet;
use np_fold::Folded;
use std::alloc::Global;

/// Whether the statements of any pod and any pod are known to hold: those that allow, and those that deny.
#[derive(Clone, Copy)]
pub(crate) struct CheckedKinds {
    pub allow: bool,
    pub deny: bool,
}

impl CheckedKinds {
    /// Asks for all protocols and ports of those that allow at once, and for all of those that deny. A gate may have thousands
    /// of them, and each by itself asks every two workloads anew.
    pub(crate) fn of(
        alloc: Global,
        folded: &Folded,
        checker: &mut Checker<'_>,
        lines: &[StatementLine],
    ) -> Result<CheckedKinds, NoMemory>
        requires { checker.old ≡ folded.now }
        ensures settled { IfOk result (λ made. AreSettled folded.now made lines.now) }
        ensures same { checker.new ≡ checker.old }
    {
        let allow = hold_together(alloc, folded, checker, lines, Wanted::Allow)?;
        let deny = hold_together(alloc, folded, checker, lines, Wanted::Deny)?;
        Ok(CheckedKinds { allow, deny })
    }

    /// Whether a statement is one of those that are known to hold.
    pub(crate) fn has(&self, statement: &StatementText) -> bool
        ensures { result ≡ spec.is_settled self.now statement.now }
    {
        (self.allow && asks_pods(statement, Wanted::Allow))
            || (self.deny && asks_pods(statement, Wanted::Deny))
    }
}

// Whether all statements of any pod and any pod with a verdict hold: they do where one statement of all their protocols and
// ports does. Where there is but one, it is not asked here.
fn hold_together(
    alloc: Global,
    folded: &Folded,
    checker: &mut Checker<'_>,
    lines: &[StatementLine],
    wanted: Wanted,
) -> Result<bool, NoMemory>
    requires { checker.old ≡ folded.now }
    ensures hold { IfOk result (λ made. made ≡ true → All (HoldsOfPods folded.now wanted) lines.now) }
    ensures same { checker.new ≡ checker.old }
{
    let many = lines
        .iter()
        .filter(|line| asks_pods(&line.statement, wanted))
        .count();
    if many < 2 {
        return Ok(false);
    }
    let question = Question {
        wanted,
        source: any_pod(alloc, folded)?,
        destination: any_pod(alloc, folded)?,
        conns: joined_conns(alloc, lines, wanted)?,
    };
    // With `?` the prover has no plan for the addresses of a packet that no signature here names.
    match counterexample_of(checker, question) {
        Ok(None) => Ok(true),
        Ok(Some(_)) => Ok(false),
        Err(fault) => Err(fault),
    }
}

// The protocols and ports of all of them. The sets of both halves of the lines are joined, so that n lines take time n log n.
fn joined_conns(alloc: Global, lines: &[StatementLine], wanted: Wanted) -> Result<ConnSet, NoMemory>
    ensures { IfOk result (λ set. (spot : PortSpot) →
        has_spot set spot ≡ list_any (λ line. spec.asks_at wanted spot line) lines.now) }
{
    match lines {
        [] => ConnSet::nothing(alloc),
        [line] => conns_asked(alloc, line, wanted),
        _ => {
            let (front, back) = lines.split_at(lines.len() / 2);
            let first = joined_conns(alloc, front, wanted)?;
            let second = joined_conns(alloc, back, wanted)?;
            let joined = first.join(&second)?;
            Ok(joined)
        }
    }
}

// The protocols and ports of a line, where it is one of them.
fn conns_asked(alloc: Global, line: &StatementLine, wanted: Wanted) -> Result<ConnSet, NoMemory>
    ensures { IfOk result (λ set. (spot : PortSpot) → has_spot set spot ≡ spec.asks_at wanted spot line.now) }
{
    if asks_pods(&line.statement, wanted) {
        line.statement.conns.copy()
    } else {
        ConnSet::nothing(alloc)
    }
}

// Whether a statement is one of any pod and any pod, with a verdict.
fn asks_pods(statement: &StatementText, wanted: Wanted) -> bool
    ensures { result ≡ spec.asks_pods wanted statement.now }
{
    is_same(statement.wanted, wanted)
        && is_any_pod(&statement.source)
        && is_any_pod(&statement.destination)
}

fn is_same(one: Wanted, other: Wanted) -> bool
    ensures { result ≡ spec.is_same one other }
{
    match one {
        Wanted::Allow => matches!(other, Wanted::Allow),
        Wanted::Deny => matches!(other, Wanted::Deny),
    }
}

fn is_any_pod(form: &EndForm) -> bool
    ensures { result ≡ spec.is_any_pod form.now }
{
    match form {
        EndForm::Pods => true,
        EndForm::Addresses | EndForm::Namespace(_) | EndForm::Work(_) | EndForm::Block(_) => false,
    }
}
