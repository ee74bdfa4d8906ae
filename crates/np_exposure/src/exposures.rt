//! The exposure of a pod.
ghost use Rattle.std.specs.Prelude.{◌≡◌, ◌≤◌, ◌<◌, length, map, IfErr, IfOk, IsTrue, OnOk};
ghost use Rattle.np_exposure.specs.Prelude.{AreRowsOf, AreWalked, IsState, IsWeightFault, are_at, choices_at_first, choices_of, each_once, mentions, rows_of, weight};
ghost use Rattle.np_rules.specs.Prelude.{IsNetOf, side_of};

use crate::asked_rule::{AskedRule, asked_rules};
use crate::choices::{KeyChoices, all_choices};
use crate::exposure_fault::ExposureFault;
use crate::exposure_row::ExposureRow;
use crate::mentioned_key::{MentionedKey, labels_of};
use crate::mentions::mentions;
use crate::open_row::finished;
use crate::open_rules::OpenRules;
use crate::requirements::each_once;
use crate::sided_requirement::SidedRequirement;
use crate::step::Case;
use crate::walk::rows_of;
use crate::weights::weight_of;
use np_base::{NoMemory, Seq};
use np_model::{Direction, Estate};
use np_rules::StrangerRules;
use std::alloc::Global;

/// More patterns of labels are not looked at.
pub const MOST_PATTERNS: u64 = 65_536;

/// What the side of a listed pod allows in a direction to pods that nobody has written yet, as rows: the first row
/// whose requirements such a pod meets has exactly the protocols and ports that it is allowed. The pod is named by its
/// place in the estate, and the list is a function of it, of the pod and of the direction. Where the mentioned
/// requirements may tell apart more than 65,536 patterns of labels, the answer is how many. The rules are looked at once for
/// each row that is made on the way.
pub fn exposure(
    alloc: Global,
    estate: &Estate,
    pod: u32,
    direction: Direction,
) -> Result<Seq<ExposureRow>, ExposureFault>
    requires { pod < length estate.now.pods }
    ensures rows { IfOk result (AreRowsOf (side_of estate.now pod direction)) }
    ensures list { IfOk result (λ rows. rows ≡ rows_of (side_of estate.now pod direction)) }
    ensures few { OnOk result (weight (mentions (side_of estate.now pod direction)) ≤ MOST_PATTERNS) }
    ensures fault { IfErr result (IsWeightFault (weight (mentions (side_of estate.now pod direction)))) }
{
    let mentions = mentions(alloc, estate, pod, direction)?;
    let weight = weight_of(alloc, &mentions)?;
    if weight > MOST_PATTERNS {
        return Err(ExposureFault::TooManyPatterns { weight });
    }
    Ok(rows_of_mentions(alloc, estate, pod, direction, mentions)?)
}

// The rows of the mentioned requirements.
fn rows_of_mentions(
    alloc: Global,
    estate: &Estate,
    pod: u32,
    direction: Direction,
    mentions: Vec<SidedRequirement>,
) -> Result<Seq<ExposureRow>, NoMemory>
    requires { pod < length estate.now.pods }
    ensures { IfOk result (λ rows.
        AreWalked (side_of estate.now pod direction) (each_once mentions.items) (choices_at_first mentions.items) rows) }
{
    let labels = labels_of(alloc, &mentions)?;
    let requirements = each_once(alloc, mentions)?;
    let rules = StrangerRules::of(alloc, estate, pod, direction)?;
    rows_of_labels(alloc, &rules, &labels, &requirements)
}

// The rows of requirements, with all choices at the keys that these look at.
fn rows_of_labels(
    alloc: Global,
    rules: &StrangerRules<'_>,
    labels: &[MentionedKey],
    requirements: &[SidedRequirement],
) -> Result<Seq<ExposureRow>, NoMemory>
    requires state { IsState (map choices_of labels.now) }
    requires keys { IsTrue (are_at (map choices_of labels.now) requirements.now) }
    ensures { IfOk result (AreWalked rules.now requirements.now (map choices_of labels.now)) }
{
    let state = all_choices(alloc, labels)?;
    let net_rules = asked_rules(alloc, &state, rules.net())?;
    rows_of_choices(alloc, rules, state, &net_rules, requirements)
}

// The rows of requirements, before any rule is settled.
fn rows_of_choices<'r>(
    alloc: Global,
    rules: &StrangerRules<'_>,
    state: Vec<KeyChoices<'_>>,
    net_rules: &'r [AskedRule<'r>],
    requirements: &[SidedRequirement],
) -> Result<Seq<ExposureRow>, NoMemory>
    requires state { IsState state.items }
    requires keys { IsTrue (are_at state.items requirements.now) }
    requires net { IsNetOf rules.now net_rules.now }
    ensures { IfOk result (AreWalked rules.now requirements.now state.entry.items) }
{
    let net = OpenRules::of(alloc, rules, net_rules)?;
    let mut case = Case { state, net };
    let rows = rows_of(alloc, rules, requirements, &mut case)?;
    finished(alloc, rows)
}
