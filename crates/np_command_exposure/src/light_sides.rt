//! The sides that were found to have few patterns, for those that are the same.
ghost use Rattle.std.specs.Prelude.{◌≡◌, ◌<◌, length};
ghost use Rattle.std.specs.Bool.{OnTrue};
ghost use Rattle.np_command_exposure.specs.steps.Light as spec;

use np_base::NoMemory;
use np_exposure::is_same_side;
use np_kept::{Kept, OfSource};
use np_model::{Direction, Estate};
use std::alloc::Global;
use std::marker::Model;

// There is room for more sides than are ever shown.
const MOST_BYTES: usize = 1 << 20;

// About how much memory a side takes, with its mark.
const SIDE_BYTES: usize = 64;

/// The side of a pod, by its place, that has few patterns.
#[derive(Drop)]
pub(crate) struct LightSide {
    pub pod: u32,
    pub direction: Direction,
}

impl<'a> OfSource<&'a Estate> for LightSide {
    ghost use Rattle.np_command_exposure.specs.steps.Light.{IsLight};

    ghost IsRight = { λ estate light. IsLight estate.now light };
}

/// Sides that were found to have no more patterns than are looked at. Most sides of a cluster are the same as an earlier one, and
/// to gather what their rules mention takes far longer than to see that. Contracts see the lists of the estate.
pub(crate) struct LightSides<'a> {
    kept: Kept<&'a Estate, LightSide>,
}

// Written out, so that letting one go is one call.
impl<'a> Drop for LightSides<'a> {
    fn drop(self) {
        let LightSides { kept: _kept } = self;
    }
}

impl<'a> Model for LightSides<'a> {
    ghost use Rattle.np_model.specs.declared.lists.EstateLists.{EstateLists};

    ghost Value = { EstateLists };

    ghost view = { λ l. l.kept.now };
}

impl<'a> LightSides<'a> {
    /// None yet. It takes no memory.
    pub(crate) fn new(alloc: Global, estate: &'a Estate) -> LightSides<'a>
        ensures { result ≡ estate.now }
    {
        LightSides {
            kept: Kept::new(alloc, estate, MOST_BYTES),
        }
    }

    /// Whether the side of a pod is the same as the last side of this mark. Then it has few patterns, too.
    pub(crate) fn has(&self, pod: u32, direction: Direction, mark: u64) -> bool
        requires { pod < length self.now.pods }
        ensures { OnTrue result (spec.HasFew self.now pod direction) }
    {
        let estate = self.kept.source();
        match self.kept.find(mark) {
            Some(light) => {
                light.direction == direction && is_same_side(estate, light.pod, pod, direction)
            }
            None => false,
        }
    }

    /// Keeps the side of a pod under its mark.
    pub(crate) fn keep(&mut self, pod: u32, direction: Direction, mark: u64) -> Result<(), NoMemory>
        requires pod { pod < length self.old.pods }
        requires few { spec.HasFew self.old pod direction }
        ensures { self.new ≡ self.old }
    {
        self.kept
            .keep(mark, LightSide { pod, direction }, SIDE_BYTES)
    }
}
