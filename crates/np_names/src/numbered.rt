//! Names with numbers behind them.
ghost use Rattle.std.specs.Prelude.{◌≡◌, ◌+◌, ◌<◌, ◌^◌, ◌∷◌, [], ◌++◌, List, ℕ, IfOk, OnOk, length, take};
ghost use Rattle.np_names.specs.Counts as spec;
ghost use Rattle.np_names.specs.Names.{name_at, wish_at};

use np_base::{NoMemory, Text};
use std::alloc::Global;
use std::collections::BTreeMap;

/// How often each of these texts is among them.
pub fn counts_of(alloc: Global, texts: &[Text]) -> Result<BTreeMap<Text, u32>, NoMemory>
    requires { length texts.now < 2 ^ 32 }
    ensures { IfOk result (λ counts. spec.HoldsCounts texts.now counts.entries) }
{
    let mut counts = BTreeMap::new(alloc);
    for text in texts {
        count(&mut counts, text)?;
    }
    Ok(counts)
}

/// The name of the next thing, from the counts of all wishes and of those that names were given for already. Its own
/// wish is then counted among these.
pub fn next_name(
    alloc: Global,
    counts: &BTreeMap<Text, u32>,
    given: &mut BTreeMap<Text, u32>,
    wish: &Text,
) -> Result<Text, NoMemory>
    requires { spec.noted given.old.entries wish.now + 1 < 2 ^ 32 }
    ensures name { IfOk result (λ name. (wishes : List (List ℕ)) (place : ℕ) →
        place < length wishes → wish.now ≡ wish_at wishes place →
        spec.HoldsCounts wishes counts.now.entries →
        spec.HoldsCounts (take place wishes) given.old.entries →
        name ≡ name_at wishes place) }
    ensures given { OnOk result ((earlier : List (List ℕ)) →
        spec.HoldsCounts earlier given.old.entries →
        spec.HoldsCounts (earlier ++ wish.now ∷ []) given.new.entries) }
{
    let before = count(given, wish)?;
    with_number(alloc, wish, noted(counts, wish), before)
}

// Counts one more text, and gives how many there were before that are equal to it.
fn count(counts: &mut BTreeMap<Text, u32>, text: &Text) -> Result<u32, NoMemory>
    requires { spec.noted counts.old.entries text.now + 1 < 2 ^ 32 }
    ensures before { IfOk result (λ before. before ≡ spec.noted counts.old.entries text.now) }
    ensures counts { OnOk result ((earlier : List (List ℕ)) →
        spec.HoldsCounts earlier counts.old.entries →
        spec.HoldsCounts (earlier ++ text.now ∷ []) counts.new.entries) }
{
    let before = noted(counts, text);
    counts.insert(text.copy()?, before + 1)?;
    Ok(before)
}

// The count of a text, 0 if it has none.
fn noted(counts: &BTreeMap<Text, u32>, text: &Text) -> u32
    ensures { result ≡ spec.noted counts.now.entries text.now }
{
    counts.get(text).copied().unwrap_or(0)
}

// The name of a thing whose wish `count` things have, `before` of them before it: the wished one, and behind it, where
// other things have the same wish, `#` and its number among them, from 1.
fn with_number(alloc: Global, wish: &Text, count: u32, before: u32) -> Result<Text, NoMemory>
    requires { before + 1 < 2 ^ 32 }
    ensures { IfOk result (λ name. name ≡ spec.with_number wish.now count before) }
{
    if count == 1 {
        return wish.copy();
    }
    let number = before + 1;
    Ok(Text::from_string(format!(in alloc; "{wish}#{number}")?))
}
