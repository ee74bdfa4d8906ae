//! Lines of text.

use crate::form::Form;
use crate::row::RowText;
use np_base::NoMemory;
use std::alloc::Global;

/// A line of text for each row: `source => destination : connections`. Nothing stands behind the last.
#[derive(Clone, Copy)]
pub struct TextForm;

// Room for most rows.
const ROOM: usize = 128;

impl Form for TextForm {
    ghost use Rattle.np_report.specs.Forms.{text_form};

    ghost bytes = { text_form };

    fn line(alloc: Global, _came: bool, row: &RowText) -> Result<Vec<u8>, NoMemory> {
        let mut line = Vec::with_capacity(alloc, ROOM)?;
        line.extend_from_slice(row.source.as_str().as_bytes())?;
        line.extend_from_slice(b" => ")?;
        line.extend_from_slice(row.destination.as_str().as_bytes())?;
        line.extend_from_slice(b" : ")?;
        line.extend_from_slice(row.connections.as_str().as_bytes())?;
        line.push(b'\n')?;
        Ok(line)
    }

    fn end(_came: bool) -> &'static str {
        ""
    }
}
