//! What may be found at the keys of labels.
ghost use Rattle.std.specs.Prelude.{◌≡◌, ◌&&◌, ℕ, List, [], Option, map, unwrap_or, IfOk, IfSome};
ghost use Rattle.std.specs.List.{list_all, list_any};
ghost use Rattle.std.specs.Option.{option_map};
ghost use Rattle.std.specs.Str.{bytes_eq};
ghost use Rattle.np_exposure.specs.Choices as spec;
ghost use Rattle.np_exposure.specs.Mentions.{same_side};
ghost use Rattle.np_exposure.specs.Strangers.{labels_at};
ghost use Rattle.np_exposure.specs.steps.Settled.{IsRight};
ghost use Rattle.np_exposure.specs.steps.States as states;
ghost use Rattle.np_exposure.specs.steps.States.{IsWitness};
ghost use Rattle.np_labels.specs.Prelude.{op_allows, value_of};
ghost use Rattle.np_rules.specs.Prelude.{IsAmong};
ghost use Rattle.np_rules.specs.declared.stranger.Stranger.{Stranger};

use crate::mentioned_key::MentionedKey;
use crate::side::Side;
use crate::sided_requirement::{SidedRequirement, allows};
use np_base::{NoMemory, Text};
use np_labels::Requirement;
use std::alloc::Global;
use std::marker::Model;

/// What may be found at a key of a side's labels: one of some values, or none. To every mentioned requirement all other
/// values are the same as one of these.
#[derive(Drop)]
pub(crate) struct KeyChoices<'a> {
    side: Side,
    key: &'a str,
    found: Vec<Option<&'a str>>,
}

impl<'a> Model for KeyChoices<'a> {
    ghost use Rattle.std.specs.Prelude.{map};
    ghost use Rattle.std.specs.Option.{option_map};
    ghost use Rattle.np_exposure.specs.Choices.{Choices};

    ghost Value = { Choices };

    ghost view = { λ c. record { side = c.side; key = c.key.now; found = map (option_map (λ value. value.now)) c.found.items } };
}

impl<'a> KeyChoices<'a> {
    /// All that may be found at a key.
    pub(crate) fn of(alloc: Global, label: &'a MentionedKey) -> Result<KeyChoices<'a>, NoMemory>
        ensures { IfOk result (λ made. made ≡ spec.choices_of label.now) }
    {
        let mut found = Vec::new(alloc);
        for value in label.values.items() {
            found.push(Some(value.as_str()))?;
        }
        found.push(Some(label.other.as_str()))?;
        if !is_name_key(label.side, label.key.as_str()) {
            found.push(None)?;
        }
        Ok(KeyChoices {
            side: label.side,
            key: label.key.as_str(),
            found,
        })
    }

    /// The key.
    pub(crate) fn key(&self) -> &str
        ensures { result.now ≡ self.now.key }
    {
        self.key
    }

    /// The first choice, where the key is one of the side.
    pub(crate) fn first_on(&self, side: Side) -> Option<&str>
        ensures { option_map (λ value. value.now) result ≡ spec.first_on side self.now }
    {
        if self.side != side {
            return None;
        }
        match self.found.first() {
            Some(found) => *found,
            None => None,
        }
    }

    /// Whether the key is this one, of this side.
    pub(crate) fn is_at(&self, side: Side, key: &str) -> bool
        ensures { result ≡ (same_side self.now.side side && bytes_eq self.now.key key.now) }
    {
        self.side == side && self.key == key
    }

    /// Whether the choices meet a requirement on the key, where all of them do, or none.
    pub(crate) fn meet(&self, requirement: &Requirement) -> Option<bool>
        ensures { (found : Option (List ℕ)) → IsAmong found self.now.found →
            IsRight (op_allows requirement.now.op requirement.now.values found) result }
    {
        if all_meet(&self.found, requirement) {
            return Some(true);
        }
        if !some_meets(&self.found, requirement) {
            return Some(false);
        }
        None
    }

    /// Whether the choices are this value, where all of them are, or none. No value is the same as the empty one.
    pub(crate) fn are(&self, value: &str) -> Option<bool>
        ensures { (found : Option (List ℕ)) → IsAmong found self.now.found →
            IsRight (bytes_eq value.now (unwrap_or found [])) result }
    {
        if all_are(&self.found, value) {
            return Some(true);
        }
        if !some_is(&self.found, value) {
            return Some(false);
        }
        None
    }

    // Whether one choice is left.
    fn is_made(&self) -> bool
        ensures { result ≡ states.is_made self.now }
    {
        self.found.len() == 1
    }

    /// Whether some choice is as wanted: a requirement on it is met, or it is missed.
    fn can_be(&self, requirement: &SidedRequirement, wanted: bool) -> bool
        ensures { result ≡ list_any (states.suits wanted requirement.now self.now) self.now.found }
    {
        let looks = requirement.looks_at(self.side, self.key);
        for choice in &self.found {
            if requirement.suits(looks, *choice, wanted) {
                return true;
            }
        }
        false
    }

    /// The choices that are as wanted.
    fn narrowed(
        &self,
        alloc: Global,
        requirement: &SidedRequirement,
        wanted: bool,
    ) -> Result<KeyChoices<'a>, NoMemory>
        ensures { IfOk result (λ made. made ≡ states.narrowed_at wanted requirement.now self.now) }
    {
        let looks = requirement.looks_at(self.side, self.key);
        let mut found = Vec::new(alloc);
        for choice in &self.found {
            if requirement.suits(looks, *choice, wanted) {
                found.push(*choice)?;
            }
        }
        Ok(KeyChoices {
            side: self.side,
            key: self.key,
            found,
        })
    }
}

// Whether all of them meet a requirement.
fn all_meet(found: &[Option<&str>], requirement: &Requirement) -> bool
    ensures { result ≡ list_all (λ one. op_allows requirement.now.op requirement.now.values (option_map (λ value. value.now) one))
        found.now }
{
    found.iter().all(|one| allows(requirement, *one))
}

// Whether some of them meets a requirement.
fn some_meets(found: &[Option<&str>], requirement: &Requirement) -> bool
    ensures { result ≡ list_any (λ one. op_allows requirement.now.op requirement.now.values (option_map (λ value. value.now) one))
        found.now }
{
    found.iter().any(|one| allows(requirement, *one))
}

// Whether all of them are this value.
fn all_are(found: &[Option<&str>], value: &str) -> bool
    ensures { result ≡ list_all (λ one. bytes_eq value.now (unwrap_or (option_map (λ value. value.now) one) [])) found.now }
{
    found.iter().all(|one| is_value(*one, value))
}

// Whether some of them is this value.
fn some_is(found: &[Option<&str>], value: &str) -> bool
    ensures { result ≡ list_any (λ one. bytes_eq value.now (unwrap_or (option_map (λ value. value.now) one) [])) found.now }
{
    found.iter().any(|one| is_value(*one, value))
}

// Whether a choice is this value. That there is no value is the same as the empty one.
fn is_value(found: Option<&str>, value: &str) -> bool
    ensures { result ≡ bytes_eq value.now (unwrap_or (option_map (λ value. value.now) found.entry) []) }
{
    match found {
        Some(found) => value == found,
        None => value.is_empty(),
    }
}

/// Whether it is the key under which a namespace's labels say its name.
pub(crate) fn is_name_key(side: Side, key: &str) -> bool
    ensures { result ≡ spec.is_name_key side key.now }
{
    side == Side::Namespace && key == "kubernetes.io/metadata.name"
}

/// All that may be found at these keys.
pub(crate) fn all_choices<'a>(
    alloc: Global,
    labels: &'a [MentionedKey],
) -> Result<Vec<KeyChoices<'a>>, NoMemory>
    ensures { IfOk result (λ made. made.items ≡ map spec.choices_of labels.now) }
{
    let mut state = Vec::new(alloc);
    for label in labels {
        state.push(KeyChoices::of(alloc, label)?)?;
    }
    Ok(state)
}

/// The choices at a key of a side, where it is one of the keys.
pub(crate) fn choices_at<'s, 'a>(
    state: &'s [KeyChoices<'a>],
    side: Side,
    key: &str,
) -> Option<&'s KeyChoices<'a>>
    ensures { IfSome result (λ choices. (s : Stranger) → IsWitness state.now s →
        IsAmong (value_of (labels_at side s) key.now) choices.now.found) }
{
    for choices in state {
        if choices.is_at(side, key) {
            return Some(choices);
        }
    }
    None
}

/// Whether one choice is left at each key, so that no requirement can be both met and missed.
pub(crate) fn is_decided(state: &[KeyChoices<'_>]) -> bool
    ensures { result ≡ states.is_decided state.now }
{
    state.iter().all(|choices| choices.is_made())
}

/// Whether some choice at each key is as wanted: a requirement is met, or it is missed.
pub(crate) fn can_be(state: &[KeyChoices<'_>], requirement: &SidedRequirement, wanted: bool) -> bool
    ensures { result ≡ states.can_be wanted requirement.now state.now }
{
    state
        .iter()
        .all(|choices| choices.can_be(requirement, wanted))
}

/// The choices at each key that are as wanted.
pub(crate) fn narrowed<'a>(
    alloc: Global,
    state: &[KeyChoices<'a>],
    requirement: &SidedRequirement,
    wanted: bool,
) -> Result<Vec<KeyChoices<'a>>, NoMemory>
    ensures { IfOk result (λ made. made.items ≡ states.narrowed wanted requirement.now state.now) }
{
    let mut made = Vec::new(alloc);
    for choices in state {
        made.push(choices.narrowed(alloc, requirement, wanted)?)?;
    }
    Ok(made)
}

/// How many choices there are at all keys together.
pub(crate) fn count(state: &[KeyChoices<'_>]) -> usize {
    let mut count = 0usize;
    for choices in state {
        count = count.saturating_add(choices.found.len());
    }
    count
}
