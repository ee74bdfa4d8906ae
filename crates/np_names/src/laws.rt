//! What follows from the definitions. Each law is the contract of a call that does nothing.
ghost use Rattle.std.specs.Prelude.{◌≡◌, ◌<◌, ◌^◌, ℕ, List, Some, All, length, map, slice_get};
ghost use Rattle.std.specs.Cmp.Lexicographic.{slice_cmp};
ghost use Rattle.std.specs.List.Sorted.{IsPermutation, IsStrictlySortedBy};
ghost use Rattle.std.specs.Ordering.{nat_cmp};
ghost use Rattle.np_names.specs.Names.{EndsInBracket, all_by_name, all_in_turn, compare_named, name_at, named, number_of};
ghost use Rattle.np_names.specs.declared.named.Named.{Named};

/// No two things have one name, where all wished names end in `]`: a number ends in a digit, and has no `#`. There are
/// fewer than 10 ^ 64 things, since the text of a number is cut to its last 64 digits.
pub fn names_are_apart()
    ensures { (wishes : List (List ℕ)) (a b : ℕ) → All EndsInBracket wishes → length wishes < 10 ^ 64 →
        a < length wishes → b < length wishes → name_at wishes a ≡ name_at wishes b → a ≡ b }
{}

/// The things stand in the strict order of their names and places.
pub fn things_stand_in_order()
    ensures { (wishes : List (List ℕ)) → IsStrictlySortedBy compare_named (all_by_name wishes) }
{}

/// So their names ascend strictly, where all wished names end in `]`, of as many things as above.
pub fn names_stand_in_order()
    ensures { (wishes : List (List ℕ)) → All EndsInBracket wishes → length wishes < 10 ^ 64 →
        IsStrictlySortedBy (slice_cmp nat_cmp) (map (λ one. one.name) (all_by_name wishes)) }
{}

/// Each thing is there once.
pub fn no_thing_is_lost()
    ensures { (wishes : List (List ℕ)) → IsPermutation (all_in_turn wishes) (all_by_name wishes) }
{}

/// Each thing has one number among those in order: its place leads to its number, and its number back to it.
pub fn each_thing_has_one_number()
    ensures count { (wishes : List (List ℕ)) → length (all_by_name wishes) ≡ length wishes }
    ensures of_place { (wishes : List (List ℕ)) (place : ℕ) → place < length wishes →
        (number_of wishes place < length wishes)
        × (slice_get (all_by_name wishes) (number_of wishes place) ≡ Some (named wishes place)) }
    ensures of_number { (wishes : List (List ℕ)) (number : ℕ) (one : Named) → number < length wishes →
        slice_get (all_by_name wishes) number ≡ Some one →
        (one ≡ named wishes one.place) × (one.place < length wishes) × (number_of wishes one.place ≡ number) }
{}
