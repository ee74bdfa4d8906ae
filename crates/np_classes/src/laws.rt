//! What follows from the definitions. Each law is the contract of a call that does nothing.
ghost use Rattle.std.specs.Prelude.{◌≡◌, ◌<◌, ◌↔◌, ℕ, List, Bool, true, Some, filter, length, slice_get, ◌==◌};
ghost use Rattle.std.specs.Cmp.{IsTotalOrder};
ghost use Rattle.std.specs.declared.cmp.Ordering.{Ordering};
ghost use Rattle.np_classes.specs.Classes.{IsAlike, class_of, firsts, keys_tie, members, places};

/// Each place is of one of the classes, and it is alike to the first place of that class.
pub fn first_places_stand_for_classes()
    ensures number { (alike : ℕ → ℕ → Bool) (count place : ℕ) → IsAlike alike count → place < count →
        class_of alike count place < length (firsts alike count) }
    ensures first { (alike : ℕ → ℕ → Bool) (count place first : ℕ) → IsAlike alike count → place < count →
        slice_get (firsts alike count) (class_of alike count place) ≡ Some first →
        (first < count) × (alike first place ≡ true) }
    ensures own { (alike : ℕ → ℕ → Bool) (count number first : ℕ) → IsAlike alike count →
        slice_get (firsts alike count) number ≡ Some first → class_of alike count first ≡ number }
{}

/// Two places are alike exactly where they are of one class.
pub fn alike_places_have_one_class()
    ensures { (alike : ℕ → ℕ → Bool) (count a b : ℕ) → IsAlike alike count → a < count → b < count →
        (alike a b ≡ true) ↔ (class_of alike count a ≡ class_of alike count b) }
{}

/// The places alike to one are those of its class.
pub fn members_are_of_one_class()
    ensures { (alike : ℕ → ℕ → Bool) (count place : ℕ) → IsAlike alike count → place < count →
        members alike count place ≡ filter (λ other. class_of alike count other == class_of alike count place) (places count) }
{}

/// Relations that agree on the places of a list make the same classes of them.
pub fn agreeing_relations_have_the_same_classes()
    ensures firsts { (alike alike' : ℕ → ℕ → Bool) (count : ℕ) →
        ((a b : ℕ) → a < count → b < count → alike a b ≡ alike' a b) →
        firsts alike count ≡ firsts alike' count }
    ensures members { (alike alike' : ℕ → ℕ → Bool) (count place : ℕ) →
        ((a b : ℕ) → a < count → b < count → alike a b ≡ alike' a b) → place < count →
        members alike count place ≡ members alike' count place }
    ensures number { (alike alike' : ℕ → ℕ → Bool) (count place : ℕ) →
        ((a b : ℕ) → a < count → b < count → alike a b ≡ alike' a b) → place < count →
        class_of alike count place ≡ class_of alike' count place }
{}

/// Places whose keys tie in a total order are alike.
pub fn ties_of_keys_are_alike<K>()
    ensures { (compare : K → K → Ordering) (keys : List K) → IsTotalOrder compare →
        IsAlike (keys_tie compare keys) (length keys) }
{}
