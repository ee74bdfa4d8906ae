//! Two sets of different spaces, as one set of their spaces side by side.
ghost use Rattle.std.specs.Prelude.{◌≡◌};

use crate::cells::Cells;
use crate::no_memory::NoMemory;
use std::alloc::Global;

/// A spot of one of two spaces.
#[derive(Clone, Copy, Debug, PartialEq, Eq)]
pub enum Which<X, Y> {
    First(X),
    Second(Y),
}

/// A set of the first space and a set of the second, which together are a set of both.
#[derive(Debug, Drop)]
pub struct Beside<A, B> {
    pub first: A,
    pub second: B,
}

impl<A: Cells, B: Cells> Cells for Beside<A, B> {
    ghost use Rattle.np_base.specs.Beside.{by_side, in_space_by_side, equal_by_sides};

    type Spot = Which<A::Spot, B::Spot>;

    ghost in_space = { by_side A.in_space B.in_space };

    ghost has = { λ set. by_side (A.has set.first) (B.has set.second) };

    ghost IsWell = { λ set. A.IsWell set.first × B.IsWell set.second };

    fn nothing(alloc: Global) -> Result<Beside<A, B>, NoMemory> {
        Ok(Beside {
            first: A::nothing(alloc)?,
            second: B::nothing(alloc)?,
        })
    }

    fn everything(alloc: Global) -> Result<Beside<A, B>, NoMemory> {
        Ok(Beside {
            first: A::everything(alloc)?,
            second: B::everything(alloc)?,
        })
    }

    fn join(&self, other: &Beside<A, B>) -> Result<Beside<A, B>, NoMemory> {
        Ok(Beside {
            first: self.first.join(&other.first)?,
            second: self.second.join(&other.second)?,
        })
    }

    fn meet(&self, other: &Beside<A, B>) -> Result<Beside<A, B>, NoMemory> {
        Ok(Beside {
            first: self.first.meet(&other.first)?,
            second: self.second.meet(&other.second)?,
        })
    }

    fn minus(&self, other: &Beside<A, B>) -> Result<Beside<A, B>, NoMemory> {
        Ok(Beside {
            first: self.first.minus(&other.first)?,
            second: self.second.minus(&other.second)?,
        })
    }

    fn copy(&self) -> Result<Beside<A, B>, NoMemory> {
        Ok(Beside {
            first: self.first.copy()?,
            second: self.second.copy()?,
        })
    }

    fn same(&self, other: &Beside<A, B>) -> bool {
        let first = self.first.same(&other.first);
        let second = self.second.same(&other.second);
        first && second
    }

    fn is_empty(&self) -> bool {
        let first = self.first.is_empty();
        let second = self.second.is_empty();
        first && second
    }

    ghost members_in_space = { λ set spot well.
        in_space_by_side _ _ _ _ (λ x. A.members_in_space set.first x well.0) (λ y. B.members_in_space set.second y well.1) spot };

    ghost equal_by_members = { λ a b well_a well_b.
        equal_by_sides A.has B.has a b (A.equal_by_members a.first b.first well_a.0 well_b.0)
        (B.equal_by_members a.second b.second well_a.1 well_b.1) };
}
