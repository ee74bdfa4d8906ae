//! The rules of NetworkPolicies, as far as the choices that are left settle them.
ghost use Rattle.std.specs.Prelude.{◌≡◌, ◌||◌, ℕ, List, [], IfOk, OnOk};
ghost use Rattle.std.specs.List.{list_any};
ghost use Rattle.np_conns.specs.Prelude.{has_spot};
ghost use Rattle.np_conns.specs.declared.port_spot.PortSpot.{PortSpot};
ghost use Rattle.np_exposure.specs.steps.Settled.{StandFor, permits, rule_matches};
ghost use Rattle.np_exposure.specs.steps.States.{IsWitness};
ghost use Rattle.np_rules.specs.Prelude.{IsNetOf, stranger_end};
ghost use Rattle.np_rules.specs.declared.stranger.Stranger.{Stranger};

use crate::asked_rule::AskedRule;
use crate::choices::{KeyChoices, count, is_decided};
use crate::key_set::KeySet;
use crate::sided_requirement::SidedRequirement;
use np_base::NoMemory;
use np_conns::ConnSet;
use np_rules::{Stranger, StrangerRules, joined_set};
use std::alloc::Global;

// Where more choices are left in all, no rule is settled: to look at so many for each rule takes longer than it saves. Nor is any
// where one pod is left, which is simply asked about.
const MOST_CHOICES: usize = 64;

/// A rule that is not settled.
#[derive(Drop)]
pub(crate) struct OpenRule<'r> {
    pub kept: &'r AskedRule<'r>,
}

/// The rules of NetworkPolicies on the way down the walk. Those that match each hypothetical pod with labels among the
/// choices are settled, and those that match none are gone.
#[derive(Drop)]
pub(crate) struct OpenRules<'r> {
    /// What the settled rules match.
    pub settled: ConnSet,
    /// The other rules.
    pub open: Vec<OpenRule<'r>>,
    /// The keys at which fewer choices may be left than when the open rules were last looked at. What is known of the others
    /// is as it was.
    narrowed: KeySet,
}

impl<'r> OpenRules<'r> {
    /// The rules before any of them is settled.
    pub(crate) fn of(
        alloc: Global,
        rules: &StrangerRules<'_>,
        net_rules: &'r [AskedRule<'r>],
    ) -> Result<OpenRules<'r>, NoMemory>
        requires { IsNetOf rules.now net_rules.now }
        ensures { IfOk result (λ made. (s : Stranger) → StandFor rules.now made s) }
    {
        let mut open = Vec::with_capacity(alloc, net_rules.len())?;
        for kept in net_rules {
            open.push(OpenRule { kept })?;
        }
        Ok(OpenRules {
            settled: joined_set(alloc, &[])?,
            open,
            narrowed: KeySet::everything(),
        })
    }

    /// The same rules, settled as far as the choices that are left tell, unless these are many, or are made. What was asked
    /// last has narrowed them.
    pub(crate) fn settled_by(
        &self,
        alloc: Global,
        namespace: &str,
        state: &[KeyChoices<'_>],
        requirement: &SidedRequirement,
    ) -> Result<OpenRules<'r>, NoMemory>
        ensures { IfOk result (λ made. (s : Stranger) → IsWitness state.now s → (spot : PortSpot) →
            permits namespace.now made s spot ≡ permits namespace.now self.now s spot) }
    {
        let narrowed = self.narrowed_by(state, requirement);
        if can_settle(state) {
            return self.with_settled(alloc, namespace, state, narrowed);
        }
        self.copy(alloc, narrowed)
    }

    /// Settles the rules as far as the choices that are left tell, as `settled_by` does. Where it does not, they stay as they are,
    /// and none is copied.
    pub(crate) fn settle(
        &mut self,
        alloc: Global,
        namespace: &str,
        state: &[KeyChoices<'_>],
        requirement: &SidedRequirement,
    ) -> Result<(), NoMemory>
        ensures { OnOk result ((s : Stranger) → IsWitness state.now s → (spot : PortSpot) →
            permits namespace.now self.new s spot ≡ permits namespace.now self.old s spot) }
    {
        let narrowed = self.narrowed_by(state, requirement);
        if can_settle(state) {
            *self = self.with_settled(alloc, namespace, state, narrowed)?;
            return Ok(());
        }
        self.narrowed = narrowed;
        Ok(())
    }

    // The keys at which fewer choices may be left, where those at one more are.
    fn narrowed_by(&self, state: &[KeyChoices<'_>], asked: &SidedRequirement) -> KeySet {
        let key = asked.requirement.key.as_str();
        self.narrowed.join(KeySet::of(state, asked.side, key))
    }

    // The same rules, none more of them settled.
    fn copy(&self, alloc: Global, narrowed: KeySet) -> Result<OpenRules<'r>, NoMemory>
        ensures { IfOk result (λ made. (namespace : List ℕ) (s : Stranger) (spot : PortSpot) →
            permits namespace made s spot ≡ permits namespace self.now s spot) }
    {
        let mut open = Vec::with_capacity(alloc, self.open.len())?;
        for rule in &self.open {
            open.push(OpenRule { kept: rule.kept })?;
        }
        Ok(OpenRules {
            settled: joined_set(alloc, &[&self.settled])?,
            open,
            narrowed,
        })
    }

    // The same rules: those that match each hypothetical pod with labels among the choices are settled, and those that
    // match none are left out. Fewer choices are left at some keys alone.
    fn with_settled(
        &self,
        alloc: Global,
        namespace: &str,
        state: &[KeyChoices<'_>],
        narrowed: KeySet,
    ) -> Result<OpenRules<'r>, NoMemory>
        ensures { IfOk result (λ made. (s : Stranger) → IsWitness state.now s → (spot : PortSpot) →
            permits namespace.now made s spot ≡ permits namespace.now self.now s spot) }
    {
        let mut sets = Vec::new(alloc);
        let mut open = Vec::new(alloc);
        self.sort(namespace, state, narrowed, &mut sets, &mut open)?;
        Ok(OpenRules {
            settled: joined_set(alloc, &sets)?,
            open,
            narrowed: KeySet::nothing(),
        })
    }

    // Adds the settled set and those of the rules that match each hypothetical pod with labels among the choices to the
    // sets, and the rules of which that is not known to the open ones. Fewer choices are left at some keys alone.
    fn sort<'s>(
        &'s self,
        namespace: &str,
        state: &[KeyChoices<'_>],
        narrowed: KeySet,
        sets: &mut Vec<&'s ConnSet>,
        opens: &mut Vec<OpenRule<'r>>,
    ) -> Result<(), NoMemory>
        requires sets { sets.old.items ≡ [] }
        requires opens { opens.old.items ≡ [] }
        ensures { OnOk result ((s : Stranger) → IsWitness state.now s → (spot : PortSpot) →
            (list_any (λ set. has_spot set.now spot) sets.new.items || list_any (rule_matches namespace.now s spot) opens.new.items)
            ≡ permits namespace.now self.now s spot) }
    {
        sets.push(&self.settled)?;
        for rule in &self.open {
            match rule.kept.matches(state, namespace, narrowed) {
                Some(true) => sets.push(rule.kept.conns())?,
                Some(false) => {}
                None => opens.push(OpenRule { kept: rule.kept })?,
            }
        }
        Ok(())
    }

    /// What the rules permit a stranger.
    pub(crate) fn permitted(
        &self,
        alloc: Global,
        namespace: &str,
        stranger: &Stranger,
    ) -> Result<ConnSet, NoMemory>
        ensures { IfOk result (λ made. (spot : PortSpot) →
            has_spot made spot ≡ permits namespace.now self.now stranger.now spot) }
    {
        let own = name_of_namespace(stranger);
        let mut sets = Vec::new(alloc);
        sets.push(&self.settled)?;
        for rule in &self.open {
            if rule.kept.reaches(namespace, own, stranger) {
                sets.push(rule.kept.conns())?;
            }
        }
        joined_set(alloc, &sets)
    }
}

// Whether rules are settled by the choices that are left.
fn can_settle(state: &[KeyChoices<'_>]) -> bool {
    !is_decided(state) && count(state) <= MOST_CHOICES
}

// The name of a stranger's namespace.
fn name_of_namespace(stranger: &Stranger) -> &str
    ensures { result.now ≡ (stranger_end stranger.now).namespace }
{
    stranger
        .namespace
        .get("kubernetes.io/metadata.name")
        .unwrap_or("")
}
