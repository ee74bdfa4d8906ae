//! Reading a file of statements.
ghost use Rattle.std.specs.Prelude.{◌≡◌, ◌++◌, All, IfOk, IsErrOf, None, Some, map, option_to_list};
ghost use Rattle.np_statements.specs.declared.statement_text.StatementFault.TheVariants.{BadStatement};
ghost use Rattle.np_statements.specs.Prelude.{GivesLines, IsWellLine};
ghost use Rattle.np_statements.specs.Lines as spec;

use crate::file_fault::FileFault;
use crate::grammar::read_statement;
use crate::statement_line::StatementLine;
use crate::statement_text::{StatementFault, StatementText};
use np_base::{NoMemory, Seq};
use std::alloc::Global;
use std::str::from_utf8;

/// Reads the statements of a file. Its lines are cut at line feeds, and numbered from 1. An empty line is passed over, and each
/// other one is a statement as `read_statement` reads it. `BadStatement` comes exactly where one is not, or is not in UTF-8,
/// with the number of the first such line.
pub fn read_statements(alloc: Global, bytes: &[u8]) -> Result<Seq<StatementLine>, FileFault>
    ensures read { GivesLines result (spec.statements_of bytes.now) }
    ensures well { IfOk result (All IsWellLine) }
{
    let lines = lines_of(alloc, bytes)?;
    let mut statements = Seq::new(alloc);
    for (place, line) in lines.iter().enumerate() {
        let number = place as u64 + 1;
        statements = with_line(statements, read_line(alloc, number, line)?)?;
    }
    Ok(statements)
}

// The lines of a file, cut at line feeds.
fn lines_of(alloc: Global, bytes: &[u8]) -> Result<Vec<&[u8]>, NoMemory>
    ensures { IfOk result (λ made. map (λ line. line.now) made.items ≡ spec.lines_of bytes.now) }
{
    Ok(bytes.split(|byte| *byte == b'\n').collect(alloc)?)
}

// The statement of the line of a number, unless it is empty.
fn read_line(alloc: Global, number: u64, line: &[u8]) -> Result<Option<StatementLine>, FileFault>
    ensures { GivesLines result (spec.line_read number line.now) }
{
    if line.is_empty() {
        return Ok(None);
    }
    match statement_of(alloc, line) {
        Ok(statement) => Ok(Some(StatementLine {
            line: number,
            statement,
        })),
        Err(StatementFault::BadStatement) => Err(FileFault::BadStatement { line: number }),
        Err(StatementFault::NoMemory) => Err(FileFault::NoMemory),
    }
}

// The statement of a line, which is a text in UTF-8.
fn statement_of(alloc: Global, line: &[u8]) -> Result<StatementText, StatementFault>
    ensures read { IfOk result (λ made. spec.statement_of line.now ≡ Some made) }
    ensures bad { IsErrOf result BadStatement → spec.statement_of line.now ≡ None }
{
    match from_utf8(line) {
        Ok(text) => read_statement(alloc, text),
        Err(_) => Err(StatementFault::BadStatement),
    }
}

// The statements so far, and then one more where there is one.
fn with_line(
    mut statements: Seq<StatementLine>,
    more: Option<StatementLine>,
) -> Result<Seq<StatementLine>, NoMemory>
    ensures { IfOk result (λ made. made ≡ statements ++ option_to_list more) }
{
    if let Some(line) = more {
        statements.push(line)?;
    }
    Ok(statements)
}
