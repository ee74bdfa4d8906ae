//! Sets of connections that were found, for pods that have the same side.
ghost use Rattle.std.specs.Prelude.{◌≡◌, IfSome};
ghost use Rattle.np_kinds.specs.Shared as spec;

use crate::set_bytes::bytes_of_set;
use np_addr::Family;
use np_base::{Cells, NoMemory};
use np_conns::ConnSet;
use np_kept::{Kept, OfSource};
use np_model::{Direction, Estate};
use std::alloc::Global;
use std::marker::Model;

// The sets that are kept weigh no more, so that those of many pairs do not fill the memory.
const MOST_WEIGHT: usize = 32 << 20;

/// What the side of a pod in a direction allows with another pod, in packets of a family. Both are named by their places in
/// the estate.
#[derive(Clone, Copy, PartialEq, Eq)]
pub(crate) struct PodQuestion {
    pub direction: Direction,
    pub near: u32,
    pub peer: u32,
    pub family: Family,
}

/// A question with its answer.
#[derive(Drop)]
pub(crate) struct SharedSet {
    pub asked: PodQuestion,
    pub set: ConnSet,
}

impl<'a> OfSource<&'a Estate> for SharedSet {
    ghost use Rattle.np_kinds.specs.Shared.{Answers};

    ghost IsRight = { λ estate kept. Answers estate.now kept.asked kept.set };
}

/// Answers to questions that were asked. Contracts see the lists of the estate.
pub(crate) struct SharedSets<'a> {
    kept: Kept<&'a Estate, SharedSet>,
}

// Written out, so that letting one go is one call.
impl<'a> Drop for SharedSets<'a> {
    fn drop(self) {
        let SharedSets { kept: _kept } = self;
    }
}

impl<'a> Model for SharedSets<'a> {
    ghost use Rattle.np_model.specs.declared.lists.EstateLists.{EstateLists};

    ghost Value = { EstateLists };

    ghost view = { λ s. s.kept.now };
}

impl<'a> SharedSets<'a> {
    /// None yet. It takes no memory.
    pub(crate) fn new(alloc: Global, estate: &'a Estate) -> SharedSets<'a>
        ensures { result ≡ estate.now }
    {
        SharedSets {
            kept: Kept::new(alloc, estate, MOST_WEIGHT),
        }
    }

    /// The answer to a question, where it is kept.
    pub(crate) fn find(&self, asked: PodQuestion) -> Option<&ConnSet>
        ensures { IfSome result (λ set. spec.Answers self.now asked set.now) }
    {
        let kept = self.kept.find(key_of(asked))?;
        if kept.asked == asked {
            Some(&kept.set)
        } else {
            None
        }
    }

    /// Keeps the answer to a question.
    pub(crate) fn keep(&mut self, asked: PodQuestion, set: &ConnSet) -> Result<(), NoMemory>
        requires { spec.Answers self.old asked set.now }
        ensures { self.new ≡ self.old }
    {
        let kept = SharedSet {
            asked,
            set: set.copy()?,
        };
        self.kept.keep(key_of(asked), kept, weight_of(set))
    }
}

// What a set that is kept counts: about its bytes where it has few ranges, and an eighth of them where it has thousands, since it
// takes that much longer to find it again.
fn weight_of(set: &ConnSet) -> usize {
    (bytes_of_set(set) / 8).saturating_add(168)
}

// The key of a question. There are fewer pods than two to the thirtieth, so that no two questions have one key.
fn key_of(asked: PodQuestion) -> u64 {
    let family = match asked.family {
        Family::Four => 0,
        Family::Six => 1,
    };
    let direction = match asked.direction {
        Direction::Ingress => 0,
        Direction::Egress => 2,
    };
    let pods = (u64::from(asked.near) << 32) | u64::from(asked.peer);
    (pods << 2) | direction | family
}
