//! What follows from the definitions. Each law is the contract of a call that does nothing.
ghost use Rattle.std.specs.Prelude.{◌≡◌, ◌≢◌, ◌<◌, ℕ, None, Some, Contains, length, true};
ghost use Rattle.np_addr.specs.declared.address.Family.{Family};
ghost use Rattle.np_conns.specs.Prelude.{is_spot};
ghost use Rattle.np_conns.specs.declared.port_spot.PortSpot.{PortSpot};
ghost use Rattle.np_model.specs.Prelude.{IsLawful, families_of};
ghost use Rattle.np_model.specs.declared.lists.EstateLists.{EstateLists};
ghost use Rattle.np_model.specs.declared.direction.Direction.{Direction};
ghost use Rattle.np_rules.specs.Prelude.{pod, pod_at};
ghost use Rattle.np_flatten.specs.Prelude.{AreFamiliesAlike, AreTreatedAlike, IsLexicallyBefore, are_together, flat_fault, flattened, group_of, is_defined, set_from, set_of};
ghost use Rattle.np_flatten.specs.declared.fault.FlatFault.TheVariants.{Alike, Split};
ghost use Rattle.np_table.specs.Prelude.{IsInFamily};
ghost use Rattle.np_kinds.specs.Prelude.{between_pods, number_of_workloads, with_address};

/// Where an estate has no fault, its flat policies without any other policy give the verdicts of the whole estate: between
/// every two different pods, in each family of the list, and between each pod and every address, either way.
pub fn flat_policies_give_the_verdicts()
    ensures pods { (lists : EstateLists) (p q : ℕ) (family : Family) (spot : PortSpot) → IsLawful lists → flat_fault lists ≡ None →
        p < length lists.pods → q < length lists.pods → p ≢ q → Contains (families_of lists.pods) family → is_spot spot ≡ true →
        between_pods (flattened lists) p q family spot ≡ between_pods lists p q family spot }
    ensures addresses { (lists : EstateLists) (p : ℕ) (direction : Direction) (family : Family) (number : ℕ) (spot : PortSpot) →
        IsLawful lists → flat_fault lists ≡ None → p < length lists.pods → IsInFamily family number → is_spot spot ≡ true →
        with_address (flattened lists) direction (pod (pod_at lists p)) family number spot
        ≡ with_address lists direction (pod (pod_at lists p)) family number spot }
{}

/// Where an estate has no fault, what passes between two workloads, where it is defined, depends on their groups alone, and it
/// is the set of the rule from the one group to the other.
pub fn groups_give_the_sets()
    ensures groups { (lists : EstateLists) → flat_fault lists ≡ None → (a a' b b' : ℕ) →
        a < number_of_workloads lists → a' < number_of_workloads lists → b < number_of_workloads lists → b' < number_of_workloads lists →
        group_of lists a ≡ group_of lists a' → group_of lists b ≡ group_of lists b' →
        is_defined lists a b ≡ true → is_defined lists a' b' ≡ true → set_of lists a b ≡ set_of lists a' b' }
    ensures rule { (lists : EstateLists) → flat_fault lists ≡ None → (a b : ℕ) →
        a < number_of_workloads lists → b < number_of_workloads lists → is_defined lists a b ≡ true →
        set_from lists (group_of lists a) (group_of lists b) ≡ Some (set_of lists a b) }
{}

/// `Split` names two workloads between which the families of the list differ in what passes, and no pair before them, by the
/// source and then by the destination, does.
pub fn the_first_split_is_told()
    ensures differ { (lists : EstateLists) (a b : ℕ) → flat_fault lists ≡ Some (Split a b) → AreFamiliesAlike lists a b → ⊥ }
    ensures first { (lists : EstateLists) (a b c d : ℕ) → flat_fault lists ≡ Some (Split a b) →
        c < number_of_workloads lists → d < number_of_workloads lists → IsLexicallyBefore c d a b → AreFamiliesAlike lists c d }
{}

/// `Alike` comes only where no pair is split. It names two workloads that selectors do not tell apart and some packet does, and
/// no pair before them, by the lesser number and then by the greater, is such.
pub fn the_first_alike_are_told()
    ensures nothing_split { (lists : EstateLists) (a b c d : ℕ) → flat_fault lists ≡ Some (Alike a b) →
        c < number_of_workloads lists → d < number_of_workloads lists → AreFamiliesAlike lists c d }
    ensures together { (lists : EstateLists) (a b : ℕ) → flat_fault lists ≡ Some (Alike a b) →
        (a < b) × (are_together lists a b ≡ true) }
    ensures differ { (lists : EstateLists) (a b : ℕ) → flat_fault lists ≡ Some (Alike a b) → AreTreatedAlike lists a b → ⊥ }
    ensures first { (lists : EstateLists) (a b c d : ℕ) → flat_fault lists ≡ Some (Alike a b) → d < number_of_workloads lists →
        c < d → are_together lists c d ≡ true → IsLexicallyBefore c d a b → AreTreatedAlike lists c d }
{}
