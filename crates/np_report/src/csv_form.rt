//! Comma-separated values.
ghost use Rattle.std.specs.Prelude.{◌≡◌, ◌++◌, OnOk};
ghost use Rattle.csv.specs.Writing.{default_writer, escaped, field_text, needs_quotes};

use crate::form::Form;
use crate::row::RowText;
use np_base::NoMemory;
use std::alloc::Global;

/// Comma-separated values, as the default writer of the crate `csv` writes them, under the header row
/// `source,destination,connections`, which stands even where there is no row.
///
/// A writer of that crate has a buffer of 8 KiB, which would be made and moved for each row. So the rows are put together
/// here, and proved to be what it writes.
#[derive(Clone, Copy)]
pub struct CsvForm;

// The names of the fields.
const HEADER: &str = "source,destination,connections\n";

// Room for most rows.
const ROOM: usize = 128;

impl Form for CsvForm {
    ghost use Rattle.np_report.specs.Forms.{csv_form};

    ghost bytes = { csv_form };

    fn line(alloc: Global, has_rows: bool, row: &RowText) -> Result<Vec<u8>, NoMemory> {
        let mut line = Vec::with_capacity(alloc, ROOM)?;
        line.extend_from_slice(Self::end(has_rows).as_bytes())?;
        put_field(&mut line, row.source.as_str())?;
        line.push(b',')?;
        put_field(&mut line, row.destination.as_str())?;
        line.push(b',')?;
        put_field(&mut line, row.connections.as_str())?;
        line.push(b'\n')?;
        Ok(line)
    }

    fn end(has_rows: bool) -> &'static str {
        if has_rows { "" } else { HEADER }
    }
}

// Puts a field last: as it is where it has no byte that calls for quotes, and else between quotes, each of its own twice.
fn put_field(line: &mut Vec<u8>, field: &str) -> Result<(), NoMemory>
    ensures { OnOk result (line.new.items ≡ line.old.items ++ field_text default_writer field.now) }
{
    let field = field.as_bytes();
    if !needs_quotes(field) {
        line.extend_from_slice(field)?;
        return Ok(());
    }
    line.push(b'"')?;
    put_escaped(line, field)?;
    line.push(b'"')?;
    Ok(())
}

// Puts bytes last, each quote twice.
fn put_escaped(line: &mut Vec<u8>, bytes: &[u8]) -> Result<(), NoMemory>
    ensures { OnOk result (line.new.items ≡ line.old.items ++ escaped default_writer bytes.now) }
{
    for byte in bytes {
        if *byte == b'"' {
            line.push(b'"')?;
        }
        line.push(*byte)?;
    }
    Ok(())
}

// Whether a field has a byte that calls for quotes.
fn needs_quotes(field: &[u8]) -> bool
    ensures { result ≡ needs_quotes default_writer field.now }
{
    field
        .iter()
        .any(|byte| matches!(*byte, b',' | b'"' | b'\n' | b'\r'))
}
