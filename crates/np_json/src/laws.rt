//! What follows from the definitions of paths, members and shapes.
ghost use Rattle.std.specs.Prelude.{◌≡◌, ◌↔◌, ◌⊎◌, ℕ, ◌^◌, ◌<◌, ◌≤◌, ℤ, pos, Float, List, [], ◌∷◌, ◌++◌, length, codes, decimal, Some, None, Err, All, IsOk};
ghost use Rattle.serde_json.specs.Data.{Data, null, number, unsigned, negative, float};
ghost use Rattle.serde_json.specs.Find.{get};
ghost use Rattle.serde_json.specs.View.{items_of};
ghost use Rattle.np_json.specs.Prelude.{as_whole, each_item, member_of, path_text, under};
ghost use Rattle.np_json.specs.declared.flaw.Flaw.{Flaw};
ghost use Rattle.np_json.specs.declared.path.Step.{Step};
ghost use Rattle.np_json.specs.declared.path.Step.TheVariants.{Field, Item};

use crate::shape::Shape;

/// The text of a path grows at its end: by the bare name of its first member, then by `.` and the name of each
/// further member, and by `[n]` for the place of an item.
pub fn path_text_grows()
    ensures first { (name : List ℕ) → path_text (Field name ∷ []) ≡ name }
    ensures member { (first : Step) (steps : List Step) (name : List ℕ) →
        path_text (first ∷ steps ++ Field name ∷ []) ≡ path_text (first ∷ steps) ++ codes "." ++ name }
    ensures item { (first : Step) (steps : List Step) (place : ℕ) →
        path_text (first ∷ steps ++ Item place ∷ [])
        ≡ path_text (first ∷ steps) ++ codes "[" ++ decimal place ++ codes "]" }
{}

/// A member is missing exactly where it is absent or null.
pub fn missing_is_absent_or_null()
    ensures { (name : List ℕ) (value : Data) →
        (member_of name value ≡ None) ↔ ((get name value ≡ None) ⊎ (get name value ≡ Some null)) }
{}

/// A whole number is one that was written without a fraction and an exponent, from -2^63 to 2^63 - 1.
pub fn whole_numbers_fit_64_bits()
    ensures small { (n : ℕ) → n < 2 ^ 63 → as_whole (number (unsigned n)) ≡ Some (pos n) }
    ensures large { (n : ℕ) → 2 ^ 63 ≤ n → as_whole (number (unsigned n)) ≡ None }
    ensures below_zero { (n : ℤ) → as_whole (number (negative n)) ≡ Some n }
    ensures fraction { (x : Float) → as_whole (number (float x)) ≡ None }
{}

/// A list whose items are not all read is refused with the flaw of the first that is not, under its place.
pub fn first_flaw_of_a_list_stands<T: Shape>()
    ensures { (shape : T) (before others : List Data) (item : Data) (flaw : Flaw) →
        All (λ value. IsOk (T.reads shape value)) before → T.reads shape item ≡ Err flaw →
        each_item (T.reads shape) 0 (items_of (before ++ item ∷ others))
        ≡ under (Item (length before)) (Err flaw) }
{}
