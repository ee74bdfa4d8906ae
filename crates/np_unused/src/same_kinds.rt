//! Kinds of workloads whose pods have the same side.
ghost use Rattle.std.specs.Prelude.{◌<◌, IfOk, length};
ghost use Rattle.std.specs.Bool.{OnTrue};
ghost use Rattle.np_unused.specs.steps.SameKinds.{IsLeft, IsSameBefore};
ghost use Rattle.np_unused.specs.steps.Search.{AreKinds};

use crate::kind_pods::Kinds;
use np_base::NoMemory;
use np_rules::{is_same_side, side_mark};
use std::alloc::Global;
use std::collections::HashMap;

/// The far ends that are left to be looked at from the side of a kind.
#[derive(Clone, Copy)]
pub(crate) enum Left {
    AllEnds,
    OneKind(usize),
}

/// By the marks of sides, the first kind that was found with each, and the first after it that has the same side. Nothing is
/// promised of them: each is asked again.
#[derive(Drop)]
pub(crate) struct SameKinds {
    firsts: HashMap<u64, usize>,
    seconds: HashMap<u64, usize>,
}

impl SameKinds {
    /// None yet. It takes no memory.
    pub(crate) fn none(alloc: Global) -> SameKinds {
        SameKinds {
            firsts: HashMap::new(alloc),
            seconds: HashMap::new(alloc),
        }
    }

    /// The far ends that are left to be looked at from the side of a kind, after all were from the sides of the kinds before it.
    /// A kind with the same side told of all but itself. So that one is left, or none at all where a second kind told of it.
    pub(crate) fn left(
        &mut self,
        kinds: &Kinds<'_, '_>,
        near: usize,
    ) -> Result<Option<Left>, NoMemory>
        requires kinds { AreKinds kinds.now }
        requires near { near < length kinds.now.pods.now }
        ensures { IfOk result (IsLeft kinds.now.estate.now kinds.now.direction kinds.now.pods.now near) }
    {
        let mark = side_mark(kinds.estate, kinds.pods[near].pod, kinds.direction);
        if let Some(first) = self.firsts.get(&mark).copied() {
            if is_same_before(kinds, near, first) {
                return self.left_but(kinds, near, first, mark);
            }
        }
        self.firsts.insert(mark, near)?;
        Ok(Some(Left::AllEnds))
    }

    // The same, where a first kind has the same side.
    fn left_but(
        &mut self,
        kinds: &Kinds<'_, '_>,
        near: usize,
        first: usize,
        mark: u64,
    ) -> Result<Option<Left>, NoMemory>
        requires kinds { AreKinds kinds.now }
        requires near { near < length kinds.now.pods.now }
        requires first { IsSameBefore kinds.now.estate.now kinds.now.direction kinds.now.pods.now near first }
        ensures { IfOk result (IsLeft kinds.now.estate.now kinds.now.direction kinds.now.pods.now near) }
    {
        if let Some(second) = self.seconds.get(&mark).copied() {
            if second != first && is_same_before(kinds, near, second) {
                return Ok(None);
            }
        }
        self.seconds.insert(mark, near)?;
        Ok(Some(Left::OneKind(first)))
    }
}

// Whether a kind stands before another one, and has the same side.
fn is_same_before(kinds: &Kinds<'_, '_>, near: usize, first: usize) -> bool
    requires kinds { AreKinds kinds.now }
    requires near { near < length kinds.now.pods.now }
    ensures { OnTrue result (IsSameBefore kinds.now.estate.now kinds.now.direction kinds.now.pods.now near first) }
{
    first < near
        && is_same_side(
            kinds.estate,
            kinds.pods[near].pod,
            kinds.pods[first].pod,
            kinds.direction,
        )
}
