//! Rows of addresses that several callers have in common.
ghost use Rattle.std.specs.Prelude.{◌≡◌, IfOk};

use crate::rows::AddressRow;
use np_base::{NoMemory, Seq};
use std::alloc::Global;
use std::marker::Model;
use std::rc::Rc;

/// What passes between a workload and each address, held once for all who have it: who keeps it and who asks. Contracts see the
/// list of rows.
#[derive(Drop)]
pub struct SharedRows {
    rows: Rc<Seq<AddressRow>>,
}

impl Model for SharedRows {
    ghost use Rattle.std.specs.Prelude.{List};
    ghost use Rattle.np_table.specs.declared.rows.AddressRow.{AddressRow};

    ghost Value = { List AddressRow };

    ghost view = { λ shared. shared.rows.value };
}

impl SharedRows {
    /// Rows, to be shared.
    pub fn of(alloc: Global, rows: Seq<AddressRow>) -> Result<SharedRows, NoMemory>
        ensures { IfOk result (λ made. made ≡ rows) }
    {
        let rows = Rc::new(alloc, rows)?;
        Ok(SharedRows { rows })
    }

    /// The same rows for one more who has them. No row is copied.
    pub fn share(&self) -> Result<SharedRows, NoMemory>
        ensures { IfOk result (λ made. made ≡ self.now) }
    {
        let rows = self.rows.clone()?;
        Ok(SharedRows { rows })
    }

    /// The rows, lent.
    pub fn items(&self) -> &[AddressRow]
        ensures { result.now ≡ self.now }
    {
        self.rows.items()
    }
}
