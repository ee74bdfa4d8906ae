//! A requirement on the labels of a pod or of its namespace.
ghost use Rattle.std.specs.Prelude.{◌≡◌};
ghost use Rattle.std.specs.Option.{option_map};
ghost use Rattle.np_labels.specs.Prelude.{is_listed, op_allows};

use crate::side::Side;
use np_base::{NoMemory, TryCopy};
use np_labels::{Op, Requirement};
use np_rules::Stranger;
use std::alloc::Global;

/// A requirement on the labels of a pod or of its namespace.
pub struct SidedRequirement {
    /// Whose labels they are.
    pub side: Side,
    pub requirement: Requirement,
}

// Written out, so that letting one go is one call.
impl Drop for SidedRequirement {
    fn drop(self) {
        let SidedRequirement {
            side: _side,
            requirement: _requirement,
        } = self;
    }
}

impl SidedRequirement {
    ghost use Rattle.std.specs.Prelude.{◌≡◌, not, ◌||◌};
    ghost use Rattle.std.specs.Option.{option_map};
    ghost use Rattle.np_exposure.specs.Mentions as mentions;
    ghost use Rattle.np_exposure.specs.Strangers as strangers;
    ghost use Rattle.np_exposure.specs.Weight as weight;
    ghost use Rattle.np_exposure.specs.Choices.{allows_found};
    ghost use Rattle.np_exposure.specs.steps.States.{as_wanted};

    /// Whether a stranger meets it.
    pub fn meets(&self, stranger: &Stranger) -> bool
        ensures { result ≡ strangers.meets self.now stranger.now }
    {
        match self.side {
            Side::Namespace => self.requirement.meets(&stranger.namespace),
            Side::Pod => self.requirement.meets(&stranger.labels),
        }
    }

    /// Whether another one has the same side, key and operator, and the same values.
    pub(crate) fn is_same(&self, other: &SidedRequirement) -> bool
        ensures { result ≡ mentions.is_same self.now other.now }
    {
        self.side == other.side
            && self.requirement.key == other.requirement.key
            && self.requirement.op == other.requirement.op
            && self.requirement.values.items() == other.requirement.values.items()
    }

    /// Whether it looks at a key on a side.
    pub(crate) fn looks_at(&self, side: Side, key: &str) -> bool
        ensures { result ≡ weight.looks_at side key.now self.now }
    {
        self.side == side && self.requirement.key.as_str() == key
    }

    /// Whether what is found at a key is as wanted, the requirement met or missed, where it looks at that key.
    pub(crate) fn suits(&self, looks: bool, found: Option<&str>, wanted: bool) -> bool
        ensures { result ≡ (not looks || as_wanted wanted (allows_found self.now (option_map (λ value. value.now) found.entry))) }
    {
        !looks || allows(&self.requirement, found) == wanted
    }
}

impl TryCopy for SidedRequirement {
    fn try_copy(&self, alloc: Global) -> Result<SidedRequirement, NoMemory> {
        Ok(SidedRequirement {
            side: self.side,
            requirement: self.requirement.try_copy(alloc)?,
        })
    }
}

/// Whether the value that a key has, or that it has none, is as a requirement asks.
pub(crate) fn allows(requirement: &Requirement, found: Option<&str>) -> bool
    ensures { result ≡ op_allows requirement.now.op requirement.now.values (option_map (λ value. value.now) found.entry) }
{
    match requirement.op {
        Op::OneOf => found.is_some_and(|value| lists(requirement, value)),
        Op::NoneOf => !found.is_some_and(|value| lists(requirement, value)),
        Op::Present => found.is_some(),
        Op::Absent => found.is_none(),
    }
}

// Whether a value is one of the listed ones. Most requirements list one alone, as each label of `matchLabels` does.
fn lists(requirement: &Requirement, value: &str) -> bool
    ensures { result ≡ is_listed requirement.now.values value.now }
{
    match requirement.values.items() {
        [only] => only.as_str() == value,
        _ => finds(requirement, value),
    }
}

// Whether a value is one of the listed ones. It is looked up by halves.
fn finds(requirement: &Requirement, value: &str) -> bool
    ensures { result ≡ is_listed requirement.now.values value.now }
{
    requirement
        .values
        .items()
        .binary_search_by(|listed| listed.as_str().cmp(value))
        .is_ok()
}
