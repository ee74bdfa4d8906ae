//! What requirements on one key together leave open.
ghost use Rattle.std.specs.Prelude.{◌≡◌, List, ℕ, true, ◌&&◌, Option, IfOk};
ghost use Rattle.np_labels.specs.Demands.{admits, IsChoice};
ghost use Rattle.np_labels.specs.Selectors.{op_allows};

use crate::choice::Choice;
use crate::op::Op;
use crate::value_set::ValueSet;
use np_base::{NoMemory, Text};
use std::alloc::Global;

/// What requirements on one key together leave open.
#[derive(Drop)]
pub(crate) struct Demand {
    may_be_absent: bool,
    values: ValueSet,
}

impl Demand {
    /// What no requirement leaves open: everything.
    pub(crate) fn free(alloc: Global) -> Demand
        ensures { (found : Option (List ℕ)) → admits result found ≡ true }
    {
        Demand {
            may_be_absent: true,
            values: ValueSet::everything(alloc),
        }
    }

    /// What is left where one more requirement is to be met.
    pub(crate) fn narrow(self, alloc: Global, op: Op, listed: &[Text]) -> Result<Demand, NoMemory>
        ensures { IfOk result (λ made. (found : Option (List ℕ)) →
            admits made found ≡ (admits self found && op_allows op listed.now found)) }
    {
        let Demand {
            may_be_absent,
            values,
        } = self;
        match op {
            Op::OneOf => Ok(Demand {
                may_be_absent: false,
                values: values.among(alloc, listed)?,
            }),
            Op::NoneOf => Ok(Demand {
                may_be_absent,
                values: values.without(listed)?,
            }),
            Op::Present => Ok(Demand {
                may_be_absent: false,
                values,
            }),
            Op::Absent => Ok(Demand {
                may_be_absent,
                values: ValueSet::nothing(alloc),
            }),
        }
    }

    /// What meets it.
    pub(crate) fn choice(self, alloc: Global) -> Result<Choice, NoMemory>
        ensures { IfOk result (IsChoice self) }
    {
        if self.may_be_absent {
            return Ok(Choice::LeftOut);
        }
        match self.values.member(alloc)? {
            Some(value) => Ok(Choice::Value(value)),
            None => Ok(Choice::Clash),
        }
    }
}
