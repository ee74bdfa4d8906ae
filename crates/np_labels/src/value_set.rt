//! Sets of values of labels.
ghost use Rattle.std.specs.Prelude.{◌≡◌, List, ℕ, true, false, not, ◌&&◌, ◌||◌, MatchOption, IfOk};
ghost use Rattle.std.specs.Ordering.{nat_cmp};
ghost use Rattle.std.specs.Cmp.Lexicographic.{slice_cmp};
ghost use Rattle.std.specs.BTreeSet.{contains};
ghost use Rattle.np_labels.specs.Demands.{has_value};
ghost use Rattle.np_labels.specs.Selectors.{is_listed};

use np_base::{NoMemory, Text};
use std::alloc::Global;
use std::collections::BTreeSet;

/// A set of texts: finitely many, or all but finitely many.
#[derive(Drop)]
pub(crate) enum ValueSet {
    Only(BTreeSet<Text>),
    AllBut(BTreeSet<Text>),
}

impl ValueSet {
    pub(crate) fn everything(alloc: Global) -> ValueSet
        ensures { (value : List ℕ) → has_value result value ≡ true }
    {
        ValueSet::AllBut(BTreeSet::new(alloc))
    }

    pub(crate) fn nothing(alloc: Global) -> ValueSet
        ensures { (value : List ℕ) → has_value result value ≡ false }
    {
        ValueSet::Only(BTreeSet::new(alloc))
    }

    pub(crate) fn has(&self, value: &Text) -> bool
        ensures { result ≡ has_value self.now value.now }
    {
        match self {
            ValueSet::Only(values) => values.contains(value),
            ValueSet::AllBut(values) => !values.contains(value),
        }
    }

    /// The values of this set that are among the listed ones.
    pub(crate) fn among(&self, alloc: Global, listed: &[Text]) -> Result<ValueSet, NoMemory>
        ensures { IfOk result (λ made. (value : List ℕ) →
            has_value made value ≡ (has_value self.now value && is_listed listed.now value)) }
    {
        let mut values = BTreeSet::new(alloc);
        for value in listed {
            if self.has(value) {
                values.insert(value.copy()?)?;
            }
        }
        Ok(ValueSet::Only(values))
    }

    /// The values of this set that are not among the listed ones.
    pub(crate) fn without(self, listed: &[Text]) -> Result<ValueSet, NoMemory>
        ensures { IfOk result (λ made. (value : List ℕ) →
            has_value made value ≡ (has_value self value && not (is_listed listed.now value))) }
    {
        match self {
            ValueSet::Only(values) => Ok(ValueSet::Only(remove_all(values, listed))),
            ValueSet::AllBut(values) => Ok(ValueSet::AllBut(insert_all(values, listed)?)),
        }
    }

    /// A value of this set, where it has one.
    pub(crate) fn member(self, alloc: Global) -> Result<Option<Text>, NoMemory>
        ensures { IfOk result (λ found. MatchOption found
            ((value : List ℕ) → has_value self value ≡ false)
            (λ value. has_value self value ≡ true)) }
    {
        match self {
            ValueSet::Only(mut values) => Ok(values.pop_first()),
            ValueSet::AllBut(values) => Ok(Some(text_outside(alloc, &values)?)),
        }
    }
}

// The set without the listed values.
fn remove_all(mut values: BTreeSet<Text>, listed: &[Text]) -> BTreeSet<Text>
    ensures { (value : List ℕ) → contains (slice_cmp nat_cmp) result value
        ≡ (contains (slice_cmp nat_cmp) values value && not (is_listed listed.now value)) }
{
    for value in listed {
        values.remove(value);
    }
    values
}

// The set with the listed values.
fn insert_all(mut values: BTreeSet<Text>, listed: &[Text]) -> Result<BTreeSet<Text>, NoMemory>
    ensures { IfOk result (λ made. (value : List ℕ) → contains (slice_cmp nat_cmp) made value
        ≡ (contains (slice_cmp nat_cmp) values value || is_listed listed.now value)) }
{
    for value in listed {
        values.insert(value.copy()?)?;
    }
    Ok(values)
}

// A text that is not in the set: its greatest one with a letter more, which is above all of them.
fn text_outside(alloc: Global, values: &BTreeSet<Text>) -> Result<Text, NoMemory>
    ensures { IfOk result (λ made. contains (slice_cmp nat_cmp) values.now made ≡ false) }
{
    let Some(greatest) = values.last() else {
        return Text::of(alloc, "a");
    };
    let mut text = String::from_str(alloc, greatest.as_str())?;
    text.push('a')?;
    Ok(Text::from_string(text))
}
