//! What is read of the texts of policies. Each law is the contract of a call that does nothing.
ghost use Rattle.std.specs.Prelude.{◌≡◌, ◌≤◌, ◌++◌, ℕ, List, [], ◌∷◌, true, length, Ok, AllPairs, IsPermutation};
ghost use Rattle.std.specs.List.{join_by, list_all};
ghost use Rattle.np_model.specs.Prelude.{IsLawful, PolicyStandsBefore};
ghost use Rattle.np_reading.specs.Prelude.{estate_of};
ghost use Rattle.np_model.specs.declared.lists.EstateLists.{EstateLists};
ghost use Rattle.np_items.specs.Prelude.{items_of};
ghost use Rattle.np_command_flatten.specs.Prelude.{AreApart, estate_with, is_printable, net_items};
ghost use Rattle.np_manifests.specs.Lists.{list_line, manifest_text, policy_text};
ghost use Rattle.np_model.specs.declared.network_policy.NetPolicy.{NetPolicy};
ghost use Rattle.np_flatten.specs.Prelude.{flat_policies};

use np_manifests::{LIST_END, LIST_FRONT, LIST_SEPARATOR};

/// The text of a list is its front, the texts of the policies with a separator between each two, and its end.
pub fn lists_are_their_policies_joined()
    ensures { (policies : List NetPolicy) →
        manifest_text policies ≡ LIST_FRONT.now ++ join_by policy_text LIST_SEPARATOR.now policies ++ LIST_END.now }
{}

/// Policies as the Kubernetes API has them, at most 20,000 and no two of one namespace and name, are read again: the text of
/// their list, with a line feed behind it or without, gives the estate of these policies alone. Each of them stands in it
/// once and nothing else does, in the order of their namespaces and of their names.
pub fn policies_are_read_again()
    ensures items { (policies : List NetPolicy) → list_all is_printable policies ≡ true → length policies ≤ 20000 →
        items_of (manifest_text policies ∷ []) ≡ Ok (net_items policies) }
    ensures text { (policies : List NetPolicy) → list_all is_printable policies ≡ true → AllPairs AreApart policies →
        length policies ≤ 20000 → estate_of (manifest_text policies ∷ []) ≡ Ok (estate_with policies) }
    ensures line { (policies : List NetPolicy) → list_all is_printable policies ≡ true → AllPairs AreApart policies →
        length policies ≤ 20000 → estate_of (list_line policies ∷ []) ≡ Ok (estate_with policies) }
    ensures once { (policies : List NetPolicy) → AllPairs AreApart policies →
        IsPermutation policies (estate_with policies).net_policies }
    ensures in_order { (policies : List NetPolicy) → AllPairs PolicyStandsBefore (estate_with policies).net_policies }
{}

/// The flat policies of an estate that is read are as the Kubernetes API has them, at most 20,000, and no two are of one
/// namespace and name. So the text of their list, with a line feed behind it or without, gives the estate of these policies
/// alone.
pub fn flat_policies_are_read_again()
    ensures printable { (lists : EstateLists) → IsLawful lists → list_all is_printable (flat_policies lists) ≡ true }
    ensures few { (lists : EstateLists) → IsLawful lists → length (flat_policies lists) ≤ 20000 }
    ensures apart { (lists : EstateLists) → IsLawful lists → AllPairs AreApart (flat_policies lists) }
    ensures text { (texts : List (List ℕ)) (lists : EstateLists) → estate_of texts ≡ Ok lists →
        estate_of (manifest_text (flat_policies lists) ∷ []) ≡ Ok (estate_with (flat_policies lists)) }
    ensures line { (texts : List (List ℕ)) (lists : EstateLists) → estate_of texts ≡ Ok lists →
        estate_of (list_line (flat_policies lists) ∷ []) ≡ Ok (estate_with (flat_policies lists)) }
{}
