//! Reading the line of a statement.
//!
//! A side of a line ends where the mark behind it begins. The name of a workload has no such mark in it; but it may
//! begin or end with a part of one, as in `workload => a/b` or `workload a/b =>`.
ghost use Rattle.std.specs.Prelude.{◌≡◌, ◌≢◌, ◌++◌, ◌&&◌, ℕ, List, codes, true, IfOk, IfSome, IsErrOf, IsSomeAnd, MatchBool, MatchOption};
ghost use Rattle.np_statements.specs.StatementGrammar as spec;
ghost use Rattle.np_statements.specs.StatementGrammar.{IsEndText, IsStatementText, Lacks};
ghost use Rattle.np_statements.specs.Sides as sides;
ghost use Rattle.np_statements.specs.declared.statement_text.EndForm.{EndForm};
ghost use Rattle.np_statements.specs.declared.statement_text.StatementText.{StatementText};
ghost use Rattle.np_check.specs.declared.question.Wanted.{Wanted};
ghost use Rattle.np_conns.specs.Prelude.{Conns, IsConns, conns_text, has_spot};

use crate::statement_text::{EndForm, StatementFault, StatementText};
use np_addr::read_cidr;
use np_base::Text;
use np_check::Wanted;
use np_conns::{ConnSet, ConnsFault, read_conns};
use np_model::is_name;
use std::alloc::Global;

/// Reads the line of a statement: `allow` or `deny`, a space, ends, ` => `, ends, ` : `, and connections as
/// `read_conns` reads them. Ends are `any pod`, `any address`, `namespace ` and a name, `workload ` and a text that has
/// a `/` in it and neither ` => ` nor ` : `, or a block of addresses as `read_cidr` reads it. One of the two sides
/// names no addresses. `BadStatement` comes exactly where the line is not put together so.
pub fn read_statement(alloc: Global, line: &str) -> Result<StatementText, StatementFault>
    ensures read { IfOk result (IsStatementText line.now) }
    ensures bad { IsErrOf result StatementFault.BadStatement →
        (statement : StatementText) → IsStatementText line.now statement → ⊥ }
{
    let Some(parts) = parts_of(line) else {
        return Err(StatementFault::BadStatement);
    };
    let source = read_end(alloc, parts.source)?;
    let destination = read_end(alloc, parts.destination)?;
    if is_address_form(&source) && is_address_form(&destination) {
        return Err(StatementFault::BadStatement);
    }
    let conns = conns_of(alloc, parts.conns)?;
    Ok(StatementText {
        wanted: parts.wanted,
        source,
        destination,
        conns,
    })
}

/// A line in its parts.
#[derive(Clone, Copy)]
pub(crate) struct Parts<'a> {
    pub wanted: Wanted,
    pub source: &'a str,
    pub destination: &'a str,
    pub conns: &'a str,
}

// The parts of a line. No other parts than these can be those of a statement.
fn parts_of(line: &str) -> Option<Parts<'_>>
    ensures spelled { IfSome result (λ parts.
        spec.IsSpelled line.now parts.wanted parts.source.now parts.destination.now parts.conns.now) }
    ensures only { (wanted : Wanted) (source destination conns : List ℕ) →
        sides.IsBefore (codes " => ") (codes "=> ") source (destination ++ (codes " : " ++ conns)) →
        sides.IsBefore (codes " : ") (codes ": ") destination conns →
        spec.IsSpelled line.now wanted source destination conns →
        IsSomeAnd result (λ parts. (parts.wanted ≡ wanted) × (parts.source.now ≡ source)
        × (parts.destination.now ≡ destination) × (parts.conns.now ≡ conns)) }
{
    let (wanted, sides) = wanted_of(line)?;
    let (source, behind) = cut(sides, " => ", "=> ")?;
    let (destination, conns) = cut(behind, " : ", ": ")?;
    Some(Parts {
        wanted,
        source,
        destination,
        conns,
    })
}

// What a line asks for, and what stands behind the space.
fn wanted_of(line: &str) -> Option<(Wanted, &str)>
    ensures { MatchOption result
        ((wanted : Wanted) (rest : List ℕ) → line.now ≢ spec.wanted_text wanted ++ (codes " " ++ rest))
        (λ found. line.now ≡ spec.wanted_text found.0 ++ (codes " " ++ found.1.now)) }
{
    if let Some(rest) = strip(line, "allow ") {
        return Some((Wanted::Allow, rest));
    }
    let rest = strip(line, "deny ")?;
    Some((Wanted::Deny, rest))
}

// The end that stands before a mark, and what stands behind the mark. `tail` is the mark without its first space.
fn cut<'a>(text: &'a str, mark: &str, tail: &str) -> Option<(&'a str, &'a str)>
    requires { sides.IsMark mark.now tail.now }
    ensures spelled { IfSome result (λ found. text.now ≡ found.0.now ++ (mark.now ++ found.1.now)) }
    ensures only { (end rest : List ℕ) → sides.IsBefore mark.now tail.now end rest →
        text.now ≡ end ++ (mark.now ++ rest) →
        IsSomeAnd result (λ found. (found.0.now ≡ end) × (found.1.now ≡ rest)) }
{
    let rest = behind_mark(text, mark, tail)?;
    let end = before(before(text, rest)?, mark)?;
    Some((end, rest))
}

// What stands behind the mark of an end.
fn behind_mark<'a>(text: &'a str, mark: &str, tail: &str) -> Option<&'a str>
    requires { sides.IsMark mark.now tail.now }
    ensures { (end rest : List ℕ) → sides.IsBefore mark.now tail.now end rest → text.now ≡ end ++ (mark.now ++ rest) →
        IsSomeAnd result (λ behind. behind.now ≡ rest) }
{
    let named = without(text, "workload ");
    let behind = behind_first(named, mark)?;
    Some(without(behind, tail))
}

// What stands behind the first place where a text has a mark.
fn behind_first<'a>(text: &'a str, mark: &str) -> Option<&'a str>
    ensures { MatchOption result (Lacks text.now mark.now) (λ behind. sides.IsBehindFirst mark.now text.now behind.now) }
{
    match text.split_once(mark) {
        Some((_, behind)) => Some(behind),
        None => None,
    }
}

// A text without its beginning, where it begins so.
fn without<'a>(text: &'a str, beginning: &str) -> &'a str
    ensures { sides.IsWithout beginning.now text.now result.now }
{
    match strip(text, beginning) {
        Some(rest) => rest,
        None => text,
    }
}

// What stands in a text behind its beginning.
fn strip<'a>(text: &'a str, beginning: &str) -> Option<&'a str>
    ensures { MatchOption result ((rest : List ℕ) → text.now ≢ beginning.now ++ rest)
        (λ rest. text.now ≡ beginning.now ++ rest.now) }
{
    text.strip_prefix(beginning)
}

// What stands in a text before its end.
fn before<'a>(text: &'a str, end: &str) -> Option<&'a str>
    ensures { MatchOption result ((front : List ℕ) → text.now ≢ front ++ end.now)
        (λ front. text.now ≡ front.now ++ end.now) }
{
    text.strip_suffix(end)
}

// Reads the ends on one side of a line.
fn read_end(alloc: Global, text: &str) -> Result<EndForm, StatementFault>
    ensures read { IfOk result (IsEndText text.now) }
    ensures bad { IsErrOf result StatementFault.BadStatement → (form : EndForm) → IsEndText text.now form → ⊥ }
{
    match text {
        "any pod" => return Ok(EndForm::Pods),
        "any address" => return Ok(EndForm::Addresses),
        _ => {}
    }
    if let Some(name) = strip(text, "namespace ") {
        if is_name(name) {
            return Ok(EndForm::Namespace(Text::of(alloc, name)?));
        }
    }
    if let Some(name) = strip(text, "workload ") {
        if is_work_text(name) {
            return Ok(EndForm::Work(Text::of(alloc, name)?));
        }
    }
    match read_cidr(text) {
        Ok(cidr) => Ok(EndForm::Block(cidr)),
        Err(_) => Err(StatementFault::BadStatement),
    }
}

// Whether a text may be the name of a workload.
fn is_work_text(name: &str) -> bool
    ensures { MatchBool result (spec.IsWorkText name.now) (spec.IsWorkText name.now → ⊥) }
{
    if !name.contains('/') {
        return false;
    }
    lacks(name, " => ") && lacks(name, " : ")
}

// Whether a text stands nowhere in another.
fn lacks(text: &str, part: &str) -> bool
    ensures { MatchBool result (Lacks text.now part.now) (Lacks text.now part.now → ⊥) }
{
    !text.contains(part)
}

// Whether ends are addresses.
fn is_address_form(form: &EndForm) -> bool
    ensures { result ≡ spec.is_address_form form.now }
{
    matches!(form, EndForm::Addresses | EndForm::Block(_))
}

// Reads the connections of a line.
fn conns_of(alloc: Global, text: &str) -> Result<ConnSet, StatementFault>
    ensures well { IfOk result IsConns }
    ensures read { IfOk result (λ made. text.now ≡ conns_text (has_spot made)) }
    ensures bad { IsErrOf result StatementFault.BadStatement →
        (conns : Conns) → IsConns conns → text.now ≢ conns_text (has_spot conns) }
{
    match read_conns(alloc, text) {
        Ok(conns) => Ok(conns),
        Err(ConnsFault::BadConns) => Err(StatementFault::BadStatement),
        Err(ConnsFault::NoMemory) => Err(StatementFault::NoMemory),
    }
}
