//! What follows from the definitions.
ghost use Rattle.std.specs.Prelude.{◌≡◌, ◌<◌, ◌^◌, ◌↔◌, ◌==◌, List, ℕ, true, All, IsSomeAnd, Some, length, map, slice_get};
ghost use Rattle.std.specs.Cmp.Lexicographic.{slice_cmp};
ghost use Rattle.std.specs.List.Sorted.{IsStrictlySortedBy};
ghost use Rattle.std.specs.Ordering.{nat_cmp};
ghost use Rattle.std.specs.declared.cmp.Ordering.TheVariants.{Equal};
ghost use Rattle.np_model.specs.declared.lists.EstateLists.{EstateLists};
ghost use Rattle.np_model.specs.declared.pod.Pod.{Pod};
ghost use Rattle.np_model.specs.Prelude.{is_well_pod};
ghost use Rattle.np_fold.specs.Prelude.{Alike, IsNamed, IsSameKind, Workload, are_alike, are_same_kind, cidrs_of_estate, compare_traits, first_pod, folding_of, has_pod, keys_of_estate, kinds_alike, members_of, owner_name, traits_of, with_owner, workload_count, workload_number, workloads_of};
ghost use Rattle.np_fold.specs.declared.traits.Traits.{Traits};
ghost use Rattle.np_classes.specs.Classes.{class_of};
ghost use Rattle.np_labels.specs.Prelude.{is_listed};
ghost use Rattle.np_model.specs.declared.owner.Owner.{Owner};

/// Two pods have equal traits exactly where they are alike: by any keys that are those that selectors name, in
/// whatever order, and by the blocks of all `networks` peers.
pub fn traits_tell_pods_apart()
    ensures { (lists : EstateLists) (keys : List (List ℕ))
        → ((key : List ℕ) → is_listed keys key ≡ is_listed (keys_of_estate lists) key) → (a b : Pod)
        → (traits_of keys (cidrs_of_estate lists) a ≡ traits_of keys (cidrs_of_estate lists) b) ↔ Alike lists a b }
{}

/// Two pods have equal traits but for their owners exactly where they are of one kind.
pub fn other_traits_tell_kinds_apart()
    ensures { (lists : EstateLists) (keys : List (List ℕ))
        → ((key : List ℕ) → is_listed keys key ≡ is_listed (keys_of_estate lists) key) → (a b : Pod) (owner : Owner)
        → (with_owner owner (traits_of keys (cidrs_of_estate lists) a) ≡ with_owner owner (traits_of keys (cidrs_of_estate lists) b))
        ↔ IsSameKind lists a b }
{}

/// Labels tell pods apart by no key but those that a selector in force names: that of a Service, of the pods that a policy
/// is for, or of a peer of a policy's rule.
pub fn each_key_is_named_by_a_selector()
    ensures { (lists : EstateLists) (key : List ℕ) → is_listed (keys_of_estate lists) key ≡ true → IsNamed lists key }
{}

/// Traits tie in their order exactly where they are equal.
pub fn only_equal_traits_tie()
    ensures { (a b : Traits) → (compare_traits a b ≡ Equal) ↔ (a ≡ b) }
{}

/// Pods are alike exactly where they have the same namespace, the same top owner, the same values of the keys that
/// selectors name, the same named ports, and addresses in the same blocks; and of one kind where all but the owner are.
pub fn the_five_equalities()
    ensures alike { (lists : EstateLists) (a b : Pod) → (are_alike lists a b ≡ true) ↔ Alike lists a b }
    ensures kind { (lists : EstateLists) (a b : Pod) → (are_same_kind lists a b ≡ true) ↔ IsSameKind lists a b }
{}

/// Top owners have one name exactly where they are one, of pods as they are read.
pub fn owner_names_tell_owners_apart()
    ensures { (a b : Pod) → is_well_pod a ≡ true → is_well_pod b ≡ true →
        (owner_name a ≡ owner_name b) ↔ ((a.namespace ≡ b.namespace) × (a.owner ≡ b.owner)) }
{}

/// Each pod is in the workload of its number, and in no other.
pub fn each_pod_has_one_workload()
    ensures number { (lists : EstateLists) (place : ℕ) → place < length lists.pods →
        workload_number lists place < length (workloads_of lists) }
    ensures members { (lists : EstateLists) (place number : ℕ) (one : Workload) → place < length lists.pods →
        slice_get (workloads_of lists) number ≡ Some one → has_pod place one ≡ (number == workload_number lists place) }
{}

/// Pods are in one workload exactly where they are alike.
pub fn one_workload_has_alike_pods()
    ensures { (lists : EstateLists) (place place' : ℕ) (a b : Pod) →
        slice_get lists.pods place ≡ Some a → slice_get lists.pods place' ≡ Some b →
        (workload_number lists place ≡ workload_number lists place') ↔ Alike lists a b }
{}

/// There are as many workloads as first pods. Each has a pod, the places of its pods are of the estate and ascend, and
/// the first of them is its first pod.
pub fn workloads_have_pods()
    ensures count { (lists : EstateLists) → length (workloads_of lists) ≡ workload_count lists }
    ensures pods { (lists : EstateLists) (number : ℕ) → number < length (workloads_of lists) →
        All (λ place. place < length lists.pods) (members_of (folding_of lists) number) }
    ensures ascending { (lists : EstateLists) (number : ℕ) →
        IsStrictlySortedBy nat_cmp (members_of (folding_of lists) number) }
    ensures first { (lists : EstateLists) (number : ℕ) → number < length (workloads_of lists) →
        IsSomeAnd (slice_get (members_of (folding_of lists) number) 0) (λ first. slice_get lists.pods first ≡ first_pod lists number) }
{}

/// Workloads stand in the strict byte order of their names, so no two have one name. There are fewer than numbers of 64
/// digits, past which texts of numbers are not told apart.
pub fn workloads_stand_by_name()
    ensures { (lists : EstateLists) → workload_count lists < 10 ^ 64 →
        IsStrictlySortedBy (slice_cmp nat_cmp) (map (λ one. one.name) (workloads_of lists)) }
{}

/// Workloads have one kind exactly where their first pods are of one kind.
pub fn kinds_are_those_of_first_pods()
    ensures { (lists : EstateLists) (number number' : ℕ) (a b : Pod) →
        first_pod lists number ≡ Some a → first_pod lists number' ≡ Some b →
        (class_of (kinds_alike lists) (workload_count lists) number ≡ class_of (kinds_alike lists) (workload_count lists) number')
        ↔ IsSameKind lists a b }
{}
