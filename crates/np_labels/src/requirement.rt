//! What a selector asks of one key.
ghost use Rattle.std.specs.Prelude.{IsTrue};
ghost use Rattle.np_labels.specs.Values.{is_ascending};

use crate::labels::Labels;
use crate::op::Op;
use crate::values::distinct;
use np_base::{NoMemory, Seq, Text, TryCopy};
use std::alloc::Global;

/// What a selector asks of one key. The values stand in the order of their bytes, each once. `Present` and `Absent`
/// look at the key alone and ignore the values, a `OneOf` without values is met by nothing, and a `NoneOf` without
/// values by everything.
#[derive(Debug, Drop)]
pub struct Requirement {
    pub key: Text,
    pub op: Op,
    pub values: Seq<Text>,
    /// Each value is below those after it.
    pub ghost ascending: { IsTrue (is_ascending values) },
}

impl Requirement {
    ghost use Rattle.std.specs.Prelude.{◌≡◌, List, ℕ, IfOk, not};
    ghost use Rattle.std.specs.Option.{option_map};
    ghost use Rattle.np_labels.specs.Selectors.{is_listed, label_requirement, meets_requirement, negation_of, op_allows, requirement_of};
    ghost use Rattle.np_labels.specs.declared.pair.Pair.{Pair};

    /// The requirement of a key with these values, in the order of their bytes and each once, however they are given.
    pub fn of(alloc: Global, key: Text, op: Op, values: Seq<Text>) -> Result<Requirement, NoMemory>
        ensures value { IfOk result (λ made. made ≡ requirement_of key op values) }
        ensures same { IfOk result (λ made. (value : List ℕ) → is_listed made.values value ≡ is_listed values value) }
    {
        let values = distinct(alloc, values)?;
        Ok(Requirement { key, op, values })
    }

    /// The requirement of one label: its key has its value (Kubernetes API reference, `matchLabels`).
    pub fn of_label(alloc: Global, key: Text, value: Text) -> Result<Requirement, NoMemory>
        ensures { IfOk result (λ made. made ≡ label_requirement (key, value)) }
    {
        let mut values = Seq::new(alloc);
        values.push(value)?;
        Ok(Requirement {
            key,
            op: Op::OneOf,
            values,
        })
    }

    /// Whether labels meet it. `NoneOf` is met where the key is absent (Kubernetes API reference, "Resources that
    /// support set-based requirements"). The time is that of finding the key among the labels, and its value among
    /// the values by halves.
    pub fn meets(&self, labels: &Labels) -> bool
        ensures { result ≡ meets_requirement self.now labels.now }
    {
        self.allows(labels.get(self.key.as_str()))
    }

    // Whether the value that the key has, or that it has none, is as asked.
    fn allows(&self, found: Option<&str>) -> bool
        ensures { result ≡ op_allows self.now.op self.now.values (option_map (λ value. value.now) found.entry) }
    {
        match self.op {
            Op::OneOf => found.is_some_and(|value| self.lists(value)),
            Op::NoneOf => !found.is_some_and(|value| self.lists(value)),
            Op::Present => found.is_some(),
            Op::Absent => found.is_none(),
        }
    }

    // Whether a value is one of the listed ones. It is looked up by halves.
    fn lists(&self, value: &str) -> bool
        ensures { result ≡ is_listed self.now.values value.now }
    {
        self.values
            .items()
            .binary_search_by(|listed| listed.as_str().cmp(value))
            .is_ok()
    }

    /// The requirement that is met exactly where this one is not: the same key and values with the opposite op.
    pub fn negated(&self) -> Result<Requirement, NoMemory>
        ensures value { IfOk result (λ made. made ≡ negation_of self.now) }
        ensures opposite { IfOk result (λ made. (labels : List Pair) →
            meets_requirement made labels ≡ not (meets_requirement self.now labels)) }
    {
        Ok(Requirement {
            key: self.key.copy()?,
            op: self.op.opposite(),
            values: self.values.try_copy(self.values.allocator())?,
        })
    }

    /// An equal requirement in memory of its own.
    pub fn copy(&self) -> Result<Requirement, NoMemory>
        ensures { IfOk result (λ made. made ≡ self.now) }
    {
        self.try_copy(self.values.allocator())
    }
}

impl TryCopy for Requirement {
    fn try_copy(&self, alloc: Global) -> Result<Requirement, NoMemory> {
        Ok(Requirement {
            key: self.key.try_copy(alloc)?,
            op: self.op,
            values: self.values.try_copy(alloc)?,
        })
    }
}
