//! What follows from the definitions of chains.
ghost use Rattle.std.specs.Prelude.{◌≡◌, ◌<◌, List, Option, Some, None, ℕ, length};
ghost use Rattle.np_owners.specs.Prelude.{IsChains, first_cycle, top, up};

/// Where no place owns itself, each chain ends at a top that nothing stands over.
pub fn chains_end()
    ensures { (ups : List (Option ℕ)) → IsChains ups → first_cycle ups ≡ None
        → (place : ℕ) → place < length ups → up ups (top ups place) ≡ None }
{}

/// Where no place owns itself, a place has the same top as the place directly over it.
pub fn owners_share_the_top()
    ensures { (ups : List (Option ℕ)) → IsChains ups → first_cycle ups ≡ None
        → (place : ℕ) → place < length ups → (above : ℕ) → up ups place ≡ Some above
        → top ups above ≡ top ups place }
{}
