//! Forms of a report.
ghost use Rattle.std.specs.Prelude.{◌≡◌, IfOk};
ghost use Rattle.np_report.specs.Forms as spec;

use crate::row::RowText;
use np_base::NoMemory;
use std::alloc::Global;

/// How the rows of a report are written, and what stands behind the last one.
pub trait Form {
    /// The bytes of a row, and those of the end. Both know whether a row came before.
    ghost bytes: { spec.Form };

    /// The bytes of a row.
    fn line(alloc: Global, has_rows: bool, row: &RowText) -> Result<Vec<u8>, NoMemory>
        ensures { IfOk result (λ line. line.items ≡ bytes.row has_rows row.now) };

    /// The bytes behind the last row.
    fn end(has_rows: bool) -> &'static str
        ensures { result.now ≡ bytes.end has_rows };
}
