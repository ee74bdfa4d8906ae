//! Requirements that labels are to meet together.
ghost use Rattle.std.specs.Prelude.{◌≡◌, IfOk, map};
ghost use Rattle.np_labels.specs.Selectors.{label_requirement, meets_selector};

use crate::labels::Labels;
use crate::requirement::Requirement;
use np_base::{NoMemory, Seq, Text, TryCopy};
use std::alloc::Global;

/// Requirements that labels are to meet together (Kubernetes API reference, LabelSelector).
#[derive(Debug, Drop)]
pub struct Selector {
    pub requirements: Seq<Requirement>,
}

impl Selector {
    /// The selector of what has all these labels, one requirement for each, in their order.
    pub fn of_labels(alloc: Global, labels: Seq<(Text, Text)>) -> Result<Selector, NoMemory>
        ensures { IfOk result (λ made. made.requirements ≡ map label_requirement labels) }
    {
        let mut requirements = Seq::new(alloc);
        for (key, value) in labels.into_vec() {
            requirements.push(Requirement::of_label(alloc, key, value)?)?;
        }
        Ok(Selector { requirements })
    }

    /// Whether labels meet all the requirements. A selector without requirements is met by everything.
    pub fn meets(&self, labels: &Labels) -> bool
        ensures { result ≡ meets_selector self.now labels.now }
    {
        self.requirements
            .items()
            .iter()
            .all(|requirement| requirement.meets(labels))
    }

    /// An equal selector in memory of its own.
    pub fn copy(&self) -> Result<Selector, NoMemory>
        ensures { IfOk result (λ made. made ≡ self.now) }
    {
        self.try_copy(self.requirements.allocator())
    }
}

impl TryCopy for Selector {
    fn try_copy(&self, alloc: Global) -> Result<Selector, NoMemory> {
        Ok(Selector {
            requirements: self.requirements.try_copy(alloc)?,
        })
    }
}
