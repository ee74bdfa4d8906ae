//! What follows from the definitions of labels, requirements and selectors.
ghost use Rattle.std.specs.Prelude.{◌≡◌, List, ℕ, [], true, not};
ghost use Rattle.std.specs.Cmp.Lexicographic.{slice_cmp};
ghost use Rattle.std.specs.List.Sorted.{IsStrictlySortedBy};
ghost use Rattle.std.specs.Ordering.{nat_cmp};
ghost use Rattle.np_labels.specs.Prelude.{HasAscendingKeys, is_well_requirement, labels_of, last_value_of, meets_requirement, meets_selector, negation_of, value_of};
ghost use Rattle.np_labels.specs.declared.pair.Pair.{Pair};
ghost use Rattle.np_labels.specs.declared.requirement.Requirement.{Requirement};

/// The labels of some pairs have at each key the value of the last pair with it.
pub fn labels_have_last_values()
    ensures { (pairs : List Pair) (key : List ℕ) → value_of (labels_of pairs) key ≡ last_value_of pairs key }
{}

/// The labels of some pairs stand in ascending order of their keys.
pub fn labels_ascend()
    ensures { (pairs : List Pair) → HasAscendingKeys (labels_of pairs) }
{}

/// Labels with the same value at each key are equal.
pub fn labels_are_their_values()
    ensures { (a b : List Pair) → HasAscendingKeys a → HasAscendingKeys b
        → ((key : List ℕ) → value_of a key ≡ value_of b key) → a ≡ b }
{}

/// A requirement and its negation are never both met, and never both unmet.
pub fn negation_is_met_elsewhere()
    ensures { (requirement : Requirement) (labels : List Pair) →
        meets_requirement (negation_of requirement) labels ≡ not (meets_requirement requirement labels) }
{}

/// The values of a requirement stand in ascending order of their bytes, so each stands once.
pub fn values_ascend()
    ensures { (requirement : Requirement) → IsStrictlySortedBy (slice_cmp nat_cmp) requirement.values }
{}

/// A requirement is well formed exactly where its negation is: both have the same values, and both want some or none.
pub fn negation_is_as_well_formed()
    ensures { (requirement : Requirement) →
        is_well_requirement (negation_of requirement) ≡ is_well_requirement requirement }
{}

/// A selector without requirements is met by everything.
pub fn empty_selector_is_met()
    ensures { (labels : List Pair) → meets_selector (record { requirements = [] }) labels ≡ true }
{}
