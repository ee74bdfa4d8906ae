//! The search for the rules that are used.
ghost use Rattle.std.specs.Prelude.{◌≡◌, ◌<◌, length, IfOk, OnOk};
ghost use Rattle.std.specs.List.{Contains};
ghost use Rattle.np_unused.specs.steps.Kinds.{is_asked};
ghost use Rattle.np_unused.specs.steps.SameKinds.{IsLeft};
ghost use Rattle.np_unused.specs.steps.Search.{AreKinds, Finds, IsSearch, IsWithin, KnowsAll, KnowsBefore, KnowsFamilies, KnowsFar, KnowsKind, KnowsLeft, KnowsLeftOf, KnowsPods, KnowsToward, Searched, may_tell, speaks_in};
ghost use Rattle.np_model.specs.Prelude.{families_of};
ghost use Rattle.np_reach.specs.Prelude.{reach_of};
ghost use Rattle.np_rules.specs.Prelude.{is_address_spot, with_addresses};
ghost use Rattle.np_kinds.specs.Prelude.{first_ends};

use crate::kind_pods::{KindPod, Kinds, kind_pods};
use crate::rule_ref::Tier;
use crate::same_kinds::{Left, SameKinds};
use crate::unknown_rules::FarPod;
use crate::used_rules::UsedRules;
use np_addr::Family;
use np_base::NoMemory;
use np_fold::Folded;
use np_model::Direction;
use np_reach::Reach;
use np_rules::{LayerRules, PodRules};
use std::alloc::Global;

/// The side of the pod that stands for a kind, and the rules that speak of that pod.
#[derive(Clone, Copy)]
pub(crate) struct Search<'e, 'p, 's> {
    pub kinds: Kinds<'e, 'p>,
    pub near: usize,
    pub side: &'s PodRules<'e>,
    pub rules: &'s LayerRules,
}

impl Search<'_, '_, '_> {
    /// Whether a kind, by its number and its pod as the far end, may tell of a rule that is not known yet: some such rule speaks of
    /// the pod. Of a far end that the side lets through in no case, NetworkPolicies and the baseline decide nothing, so that it
    /// tells of admin rules alone.
    fn may_tell(&self, kind: usize, far: &KindPod, family: Family, used: &UsedRules) -> bool
        requires { far.now.pod < length self.now.kinds.estate.now.pods }
        ensures { result ≡ may_tell self.now used.now kind far.now family }
    {
        is_asked(self.near, kind, far)
            && (self.speaks_in(Tier::Admin, far, family, used)
                || (self.kinds.reach.may(self.near, kind)
                    && (self.speaks_in(Tier::Net, far, family, used)
                        || self.speaks_in(Tier::Base, far, family, used))))
    }

    // Whether a rule of a tier that is not known yet speaks of the pod of a kind.
    fn speaks_in(&self, tier: Tier, far: &KindPod, family: Family, used: &UsedRules) -> bool
        requires { far.now.pod < length self.now.kinds.estate.now.pods }
        ensures { result ≡ speaks_in self.now used.now tier far.now family }
    {
        let pod = FarPod {
            estate: self.kinds.estate,
            direction: self.kinds.direction,
            pod: &self.kinds.estate.pods()[far.pod as usize],
            family,
        };
        pod.some_unknown_speaks(tier, self.rules, used)
    }
}

/// The rules of a direction that are used, by what the first pods of the kinds may let through. The rules of each kind of
/// pods are looked at with all addresses as far ends, and then with each kind, until all of them are known. Of kinds whose
/// pods have the same side the first one tells nearly all.
pub(crate) fn used_rules(
    alloc: Global,
    folded: &Folded,
    reach: &Reach,
    direction: Direction,
) -> Result<UsedRules, NoMemory>
    requires reach { reach.now ≡ reach_of folded.now direction (first_ends folded.now) }
    ensures { IfOk result (λ used. Finds folded.now direction used) }
{
    let pods = kind_pods(alloc, folded)?;
    let kinds = Kinds {
        alloc,
        estate: folded.estate(),
        direction,
        pods: &pods,
        reach,
    };
    let mut used = UsedRules::none(alloc);
    let mut same = SameKinds::none(alloc);
    for near in 0..pods.len() {
        search_near(&kinds, near, &mut same, &mut used)?;
    }
    Ok(used)
}

// Looks for the rules of the pod that stands for a kind, after those of the kinds before it.
fn search_near(
    kinds: &Kinds<'_, '_>,
    near: usize,
    same: &mut SameKinds,
    used: &mut UsedRules,
) -> Result<(), NoMemory>
    requires kinds { AreKinds kinds.now }
    requires near { near < length kinds.now.pods.now }
    requires before { KnowsBefore kinds.now.estate.now kinds.now.direction kinds.now.pods.now near used.old }
    ensures { OnOk result (Searched kinds.now.estate.now kinds.now.direction
        (KnowsKind kinds.now.estate.now kinds.now.direction kinds.now.pods.now near) used.old used.new) }
{
    let left = same.left(kinds, near)?;
    match left {
        Some(ends) => search_side(kinds, near, ends, used),
        None => Ok(()),
    }
}

// Looks for the rules of the pod that stands for a kind with the far ends that are left.
fn search_side(
    kinds: &Kinds<'_, '_>,
    near: usize,
    left: Left,
    used: &mut UsedRules,
) -> Result<(), NoMemory>
    requires kinds { AreKinds kinds.now }
    requires near { near < length kinds.now.pods.now }
    requires left { IsWithin (length kinds.now.pods.now) left }
    ensures { OnOk result (Searched kinds.now.estate.now kinds.now.direction
        (KnowsLeftOf kinds.now.estate.now kinds.now.direction kinds.now.pods.now near left) used.old used.new) }
{
    let pod = kinds.pods[near].pod;
    let side = PodRules::of(kinds.alloc, kinds.estate, pod, kinds.direction)?;
    let rules = side.names(kinds.alloc)?;
    let search = Search {
        kinds: *kinds,
        near,
        side: &side,
        rules: &rules,
    };
    search_ends(&search, left, used)
}

// Looks for the rules of a side with the far ends that are left, unless all are known.
fn search_ends(
    search: &Search<'_, '_, '_>,
    left: Left,
    used: &mut UsedRules,
) -> Result<(), NoMemory>
    requires search { IsSearch search.now }
    requires left { IsWithin (length search.now.kinds.pods.now) left }
    ensures { OnOk result (Searched search.now.side.now.lists search.now.side.now.direction
        (KnowsLeft search.now.side.now search.now.kinds.pods.now search.now.near left) used.old used.new) }
{
    if used.has_all(search.rules) {
        return Ok(());
    }
    let families = search.kinds.estate.families();
    match left {
        Left::AllEnds => {
            search_addresses(search, used)?;
            search_families(search, families, used)
        }
        Left::OneKind(kind) => search_toward(search, kind, families, used),
    }
}

// Looks for the rules of a side with all addresses as far ends.
fn search_addresses(search: &Search<'_, '_, '_>, used: &mut UsedRules) -> Result<(), NoMemory>
    requires search { IsSearch search.now }
    ensures { OnOk result (Searched search.now.side.now.lists search.now.side.now.direction
        (KnowsAll is_address_spot search.now.side.now with_addresses) used.old used.new) }
{
    let layer = search.side.address_layer(search.kinds.alloc)?;
    used.note_layer(search.kinds.alloc, layer, search.rules)
}

// Looks for the rules of a side with the pods of all kinds as far ends, in packets of the families of the estate.
fn search_families(
    search: &Search<'_, '_, '_>,
    families: &[Family],
    used: &mut UsedRules,
) -> Result<(), NoMemory>
    requires search { IsSearch search.now }
    requires families { families.now ≡ families_of search.now.side.now.lists.pods }
    ensures { OnOk result (Searched search.now.side.now.lists search.now.side.now.direction
        (KnowsFamilies search.now.side.now search.now.kinds.pods.now search.now.near) used.old used.new) }
{
    for family in families {
        search_pods(search, *family, used)?;
    }
    Ok(())
}

// Looks for the rules of a side with the pod of one kind as the far end, in packets of the families of the estate.
fn search_toward(
    search: &Search<'_, '_, '_>,
    kind: usize,
    families: &[Family],
    used: &mut UsedRules,
) -> Result<(), NoMemory>
    requires search { IsSearch search.now }
    requires kind { kind < length search.now.kinds.pods.now }
    requires families { families.now ≡ families_of search.now.side.now.lists.pods }
    ensures { OnOk result (Searched search.now.side.now.lists search.now.side.now.direction
        (KnowsToward search.now.side.now search.now.kinds.pods.now search.now.near kind) used.old used.new) }
{
    for family in families {
        search_kind(search, kind, *family, used)?;
    }
    Ok(())
}

// Looks for the rules of a side with the pods of all kinds as far ends, until all are known.
fn search_pods(
    search: &Search<'_, '_, '_>,
    family: Family,
    used: &mut UsedRules,
) -> Result<(), NoMemory>
    requires search { IsSearch search.now }
    requires family { Contains (families_of search.now.side.now.lists.pods) family }
    ensures { OnOk result (Searched search.now.side.now.lists search.now.side.now.direction
        (KnowsPods search.now.side.now search.now.kinds.pods.now search.now.near family) used.old used.new) }
{
    for kind in 0..search.kinds.pods.len() {
        if used.has_all(search.rules) {
            return Ok(());
        }
        search_kind(search, kind, family, used)?;
    }
    Ok(())
}

// Looks for the rules of a side with the pod of a kind as the far end, where it may tell of any.
fn search_kind(
    search: &Search<'_, '_, '_>,
    kind: usize,
    family: Family,
    used: &mut UsedRules,
) -> Result<(), NoMemory>
    requires search { IsSearch search.now }
    requires kind { kind < length search.now.kinds.pods.now }
    requires family { Contains (families_of search.now.side.now.lists.pods) family }
    ensures { OnOk result (Searched search.now.side.now.lists search.now.side.now.direction
        (KnowsFar search.now.side.now search.now.kinds.pods.now search.now.near family kind) used.old used.new) }
{
    let far = &search.kinds.pods[kind];
    if !search.may_tell(kind, far, family, used) {
        return Ok(());
    }
    let layer = search.side.pod_layer(search.kinds.alloc, far.pod, family)?;
    used.note_layer(search.kinds.alloc, layer, search.rules)
}

// Whether a kind is asked for with another one, or with itself: it has to have two pods then.
fn is_asked(near: usize, kind: usize, far: &KindPod) -> bool
    ensures { result ≡ is_asked near kind far.now }
{
    kind != near || far.is_shared
}
