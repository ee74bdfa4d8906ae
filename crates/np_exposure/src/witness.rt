//! A hypothetical pod with labels among the choices.
ghost use Rattle.std.specs.Prelude.{◌≡◌, [], ◌∷◌, ◌++◌, ℕ, List, IfOk, OnOk, flat_map};
ghost use Rattle.np_exposure.specs.Choices as spec;
ghost use Rattle.np_exposure.specs.Prelude.{IsState, IsWitness};
ghost use Rattle.np_labels.specs.Prelude.{last_value_of, value_of};

use crate::choices::KeyChoices;
use crate::side::Side;
use np_base::{NoMemory, Seq, Text};
use np_labels::{Labels, Pair};
use np_rules::Stranger;
use std::alloc::Global;

/// A hypothetical pod with labels among the choices: the first at each key.
pub(crate) fn stranger_of(alloc: Global, state: &[KeyChoices<'_>]) -> Result<Stranger, NoMemory>
    requires { IsState state.now }
    ensures { IfOk result (IsWitness state.now) }
{
    let mut named = Seq::new(alloc);
    add_pair(&mut named, "kubernetes.io/metadata.name", "a")?;
    let namespace = with_choices(alloc, named, state, Side::Namespace)?;
    let labels = with_choices(alloc, Seq::new(alloc), state, Side::Pod)?;
    Ok(Stranger { namespace, labels })
}

// Labels with the first choices at the keys of a side. A label that comes later replaces one before it.
fn with_choices(
    alloc: Global,
    pairs: Seq<Pair>,
    state: &[KeyChoices<'_>],
    side: Side,
) -> Result<Labels, NoMemory>
    ensures { IfOk result (λ made. (key : List ℕ) →
        value_of made key ≡ last_value_of (pairs ++ flat_map (spec.first_label side) state.now) key) }
{
    let mut made = pairs;
    for choices in state {
        add_first(&mut made, choices, side)?;
    }
    Labels::of(alloc, made)
}

// Adds the first choice at a key of a side, if it is a value.
fn add_first(pairs: &mut Seq<Pair>, choices: &KeyChoices<'_>, side: Side) -> Result<(), NoMemory>
    ensures { OnOk result (pairs.new ≡ pairs.old ++ spec.first_label side choices.now) }
{
    match choices.first_on(side) {
        Some(value) => add_pair(pairs, choices.key(), value),
        None => Ok(()),
    }
}

// Adds a label.
fn add_pair(pairs: &mut Seq<Pair>, key: &str, value: &str) -> Result<(), NoMemory>
    ensures { OnOk result (pairs.new ≡ pairs.old ++ record { key = key.now; value = value.now } ∷ []) }
{
    let alloc = pairs.allocator();
    let key = Text::of(alloc, key)?;
    let value = Text::of(alloc, value)?;
    pairs.push(Pair { key, value })
}
