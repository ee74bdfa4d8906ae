//! JSON.

use crate::form::Form;
use crate::row::RowText;
use json::Writer;
use np_base::NoMemory;
use std::alloc::Global;

/// A JSON list: `[`, the rows joined by `,` and a line feed, `]`, a line feed. A row is an object of its three texts, as
/// `serde_json` writes it.
#[derive(Clone, Copy)]
pub struct JsonForm;

// Room for most rows.
const ROOM: usize = 256;

impl Form for JsonForm {
    ghost use Rattle.np_report.specs.Forms.{json_form};

    ghost bytes = { json_form };

    fn line(alloc: Global, has_rows: bool, row: &RowText) -> Result<Vec<u8>, NoMemory> {
        let mut line = Vec::with_capacity(alloc, ROOM)?;
        line.extend_from_slice(if has_rows { ",\n" } else { "[" }.as_bytes())?;
        let mut object = Writer::new(line);
        object.begin_object()?;
        object.key("connections")?;
        object.string(row.connections.as_str())?;
        object.key("destination")?;
        object.string(row.destination.as_str())?;
        object.key("source")?;
        object.string(row.source.as_str())?;
        object.end_object()?;
        Ok(object.into_inner())
    }

    fn end(has_rows: bool) -> &'static str {
        if has_rows { "]\n" } else { "[]\n" }
    }
}
