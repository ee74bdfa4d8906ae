//! Labels that several objects have in common.
ghost use Rattle.std.specs.Prelude.{◌≡◌, IfOk};

use crate::labels::Labels;
use np_base::NoMemory;
use std::alloc::Global;
use std::marker::Model;
use std::rc::Rc;

/// Labels that are held once however many objects have them, as those of a namespace, which each of its pods has.
/// Contracts see the list of pairs, as that of `Labels`.
#[derive(Debug, Drop)]
pub struct SharedLabels {
    labels: Rc<Labels>,
}

impl Model for SharedLabels {
    ghost use Rattle.std.specs.Prelude.{List};
    ghost use Rattle.np_labels.specs.declared.pair.Pair.{Pair};

    ghost Value = { List Pair };

    ghost view = { λ shared. shared.labels.value };
}

impl SharedLabels {
    /// Labels, to be shared.
    pub fn of(alloc: Global, labels: Labels) -> Result<SharedLabels, NoMemory>
        ensures { IfOk result (λ made. made ≡ labels) }
    {
        let labels = Rc::new(alloc, labels)?;
        Ok(SharedLabels { labels })
    }

    /// The same labels for one more object. No label is copied.
    pub fn share(&self) -> Result<SharedLabels, NoMemory>
        ensures { IfOk result (λ made. made ≡ self.now) }
    {
        let labels = self.labels.clone()?;
        Ok(SharedLabels { labels })
    }

    /// The labels, lent.
    pub fn labels(&self) -> &Labels
        ensures { result.now ≡ self.now }
    {
        &self.labels
    }
}
