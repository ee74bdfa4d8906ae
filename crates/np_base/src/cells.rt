//! Sets of spots, and their laws.
ghost use Rattle.std.specs.Prelude.{◌≡◌, ◌↔◌, Bool, true, false, ◌&&◌, ◌||◌, not, IsTrue, IfOk, MatchBool};

use crate::no_memory::NoMemory;
use std::alloc::Global;

/// A kind of set: whole sets of spots of one space, joined, met and subtracted at once. Code that uses this
/// trait alone says nothing of how a set is kept.
pub trait Cells: Sized + Drop {
    /// What a set holds or does not hold.
    type Spot;

    /// Which spots are of the space. No set has a spot outside it.
    ghost in_space: { Self.Spot → Bool };

    /// Whether the spot is in the set.
    ghost has: { Self → Self.Spot → Bool };

    /// Which values are well formed. Every value that a call makes is.
    ghost IsWell: { Self → Type 0 };

    /// The set of no spot.
    fn nothing(alloc: Global) -> Result<Self, NoMemory>
        ensures members { IfOk result (λ made. (spot : Self.Spot) → has made spot ≡ false) }
        ensures well { IfOk result IsWell };

    /// The set of all spots of the space.
    fn everything(alloc: Global) -> Result<Self, NoMemory>
        ensures members { IfOk result (λ made. (spot : Self.Spot) → has made spot ≡ in_space spot) }
        ensures well { IfOk result IsWell };

    /// The spots that are in either set.
    fn join(&self, other: &Self) -> Result<Self, NoMemory>
        ensures members { IfOk result (λ made. (spot : Self.Spot) →
            has made spot ≡ (has self.now spot || has other.now spot)) }
        ensures well { IfOk result IsWell };

    /// The spots that are in both sets.
    fn meet(&self, other: &Self) -> Result<Self, NoMemory>
        ensures members { IfOk result (λ made. (spot : Self.Spot) →
            has made spot ≡ (has self.now spot && has other.now spot)) }
        ensures well { IfOk result IsWell };

    /// The spots that are in this set and not in the other.
    fn minus(&self, other: &Self) -> Result<Self, NoMemory>
        ensures members { IfOk result (λ made. (spot : Self.Spot) →
            has made spot ≡ (has self.now spot && not (has other.now spot))) }
        ensures well { IfOk result IsWell };

    /// An equal set.
    fn copy(&self) -> Result<Self, NoMemory>
        ensures equal { IfOk result (λ made. made ≡ self.now) }
        ensures well { IfOk result IsWell };

    /// Whether the sets have the same members, and so are equal. Where they have not, some spot is in one alone.
    fn same(&self, other: &Self) -> bool
        ensures answer { MatchBool result (self.now ≡ other.now)
            ((spot : Self.Spot) × (has self.now spot ≡ not (has other.now spot))) }
        ensures well { IsWell self.now × IsWell other.now };

    /// Whether the set has no member. Where it answers false, some spot is in the set.
    fn is_empty(&self) -> bool
        ensures answer { MatchBool result ((spot : Self.Spot) → has self.now spot ≡ false)
            ((spot : Self.Spot) × (has self.now spot ≡ true)) }
        ensures well { IsWell self.now };

    /// A set has only spots of the space.
    ghost members_in_space: { (set : Self) (spot : Self.Spot) → IsWell set → has set spot ≡ true → in_space spot ≡ true };

    /// Sets with the same members are equal values.
    ghost equal_by_members: { (a b : Self) → IsWell a → IsWell b → ((spot : Self.Spot) → has a spot ≡ has b spot) → a ≡ b };
}
