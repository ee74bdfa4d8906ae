//! The bytes of several rows.
ghost use Rattle.std.specs.Prelude.{◌≡◌, IfOk};
ghost use Rattle.np_report.specs.Forms as spec;

use crate::form::Form;
use crate::row::RowText;
use np_base::NoMemory;
use std::alloc::Global;

/// The bytes of some rows of a report, which knows whether a row came before.
pub fn lines_of<F: Form>(
    alloc: Global,
    has_rows: bool,
    rows: &[RowText],
) -> Result<Vec<u8>, NoMemory>
    ensures { IfOk result (λ lines. lines.items ≡ spec.lines_of F.bytes has_rows rows.now) }
{
    let mut lines = Vec::new(alloc);
    let mut has_rows = has_rows;
    for row in rows {
        lines.extend_from_slice(&F::line(alloc, has_rows, row)?)?;
        has_rows = true;
    }
    Ok(lines)
}
