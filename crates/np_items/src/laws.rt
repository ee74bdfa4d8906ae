//! What follows from the definitions of inputs and items.
ghost use Rattle.std.specs.Prelude.{◌≡◌, ℕ, ◌+◌, List, [], ◌∷◌, ◌++◌, length, false, codes, Ok, Err};
ghost use Rattle.serde_json.specs.Data.{Data};
ghost use Rattle.np_json.specs.Prelude.{text_of};
ghost use Rattle.np_json.specs.declared.field.Field.TheVariants.{Given};
ghost use Rattle.np_items.specs.Prelude.{all_values, input_values, is_list_kind, item_of, items_from, items_in};
ghost use Rattle.np_items.specs.declared.item.Item.{Item};
ghost use Rattle.np_items.specs.declared.fault.ItemsFault.{ItemsFault};

/// An input that is an object whose kind does not end in `List` lists that object alone.
pub fn an_object_is_one_item()
    ensures { (input : ℕ) (value : Data) (version kind : List ℕ) →
        text_of (codes "apiVersion") value ≡ Given version → text_of (codes "kind") value ≡ Given kind →
        is_list_kind kind ≡ false → items_in input value ≡ Ok (value ∷ []) }
{}

/// Inputs that do not all list items are refused as the first that does not, under its number.
pub fn first_refused_input_stands()
    ensures { (before others : List (List ℕ)) (text : List ℕ) (values : List Data) (fault : ItemsFault) →
        all_values before ≡ Ok values → input_values (1 + length before) text ≡ Err fault →
        all_values (before ++ text ∷ others) ≡ Err fault }
{}

/// Items that are not all read are refused as the first that is not, under its number.
pub fn first_refused_item_stands()
    ensures { (before others : List Data) (value : Data) (items : List Item) (fault : ItemsFault) →
        items_from 1 before ≡ Ok items → item_of (1 + length before) value ≡ Err fault →
        items_from 1 (before ++ value ∷ others) ≡ Err fault }
{}
