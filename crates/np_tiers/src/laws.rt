//! Laws of the walk of a layer.
ghost use Rattle.std.specs.Prelude.{◌≡◌, ◌&&◌, Bool, List, [], ◌∷◌};
ghost use Rattle.std.specs.List.{list_any};
ghost use Rattle.np_tiers.specs.Prelude.{mark_allows, mark_of, marks_at, walk_allows};
ghost use Rattle.np_tiers.specs.declared.layer.Layer.{Layer};
ghost use Rattle.np_tiers.specs.declared.mark.Marked.{Marked};

/// Law: what decides a spot says what the layer says of it.
pub fn mark_says_what_the_walk_says<S>()
    ensures { (at : S → Bool) (layer : Layer S) → mark_allows layer (mark_of at layer) ≡ walk_allows at layer }
{}

/// Law: the spots that a layer allows are those of the carved sets whose mark allows.
pub fn allowed_is_union_of_carved<S>()
    ensures { (at : S → Bool) (layer : Layer S) (entries : List (Marked S)) →
        marks_at at entries ≡ mark_of at layer ∷ [] →
        walk_allows at layer ≡ list_any (λ entry. at entry.set && mark_allows layer entry.mark) entries }
{}
