//! The walk over the requirements.
ghost use Rattle.std.specs.Prelude.{◌≡◌, IfOk, IsTrue};
ghost use Rattle.np_exposure.specs.Prelude.{AreWalked, IsExposure, IsLeaf, IsState, StandFor, StandForAll, are_at};
ghost use Rattle.np_exposure.specs.steps.Walks as walks;

use crate::choices::{KeyChoices, is_decided};
use crate::open_row::OpenRow;
use crate::open_rules::OpenRules;
use crate::pending::{Pending, all_joined};
use crate::sided_requirement::SidedRequirement;
use crate::step::{Case, next_step};
use crate::witness::stranger_of;
use np_base::{NoMemory, Seq};
use np_conns::ConnSet;
use np_rules::{Stranger, StrangerRules};
use np_tiers::verdict_set;
use std::alloc::Global;

/// The rows of the requirements that are left, with the choices that are left. Where a requirement can be both met and
/// missed, the case with fewer choices is a call of its own, and the other goes on here. So calls stand at most 16 deep in
/// one another, since each has at most half of the patterns, of which there are 65,536 at most. Where one choice is left at
/// each key, no more requirements are asked. Rules of NetworkPolicies are settled on the way, as far as the choices tell.
pub(crate) fn rows_of<'a>(
    alloc: Global,
    rules: &StrangerRules<'_>,
    requirements: &'a [SidedRequirement],
    case: &mut Case<'_, '_>,
) -> Result<Vec<OpenRow<'a>>, NoMemory>
    requires state { IsState case.old.state.items }
    requires keys { IsTrue (are_at case.old.state.items requirements.now) }
    requires net { StandForAll rules.now case.old.state.items case.old.net }
    ensures { IfOk result (λ rows. AreWalked rules.now requirements.now case.old.state.items rows.items) }
{
    let mut more = still_asked(requirements, &case.state);
    let mut pending = Seq::new(alloc);
    while let Some((first, rest)) = more.split_first() {
        let aside = next_step(alloc, rules.namespace(), first, case)?;
        more = still_asked(rest, &case.state);
        if let Some(mut aside) = aside {
            let rows = rows_of(alloc, rules, rest, &mut aside.case)?;
            pending.push(Pending {
                requirement: first,
                wanted: aside.wanted,
                rows,
            })?;
        }
    }
    let last = leaf(alloc, rules, case)?;
    all_joined(pending, last)
}

// The requirements that are still to be asked: none where one choice is left at each key.
fn still_asked<'a>(
    requirements: &'a [SidedRequirement],
    state: &[KeyChoices<'_>],
) -> &'a [SidedRequirement]
    ensures { result.now ≡ walks.still_asked requirements.now state.now }
{
    if is_decided(state) { &[] } else { requirements }
}

// One row of the exposure of a hypothetical pod with labels among the choices.
fn leaf<'a>(
    alloc: Global,
    rules: &StrangerRules<'_>,
    case: &Case<'_, '_>,
) -> Result<Vec<OpenRow<'a>>, NoMemory>
    requires state { IsState case.now.state.items }
    requires net { StandForAll rules.now case.now.state.items case.now.net }
    ensures { IfOk result (λ rows. IsLeaf rules.now case.now.state.items rows.items) }
{
    let stranger = stranger_of(alloc, &case.state)?;
    let conns = exposed(alloc, rules, &case.net, &stranger)?;
    OpenRow::alone(alloc, conns)
}

// What the rules allow a stranger.
fn exposed(
    alloc: Global,
    rules: &StrangerRules<'_>,
    net: &OpenRules<'_>,
    stranger: &Stranger,
) -> Result<ConnSet, NoMemory>
    requires { StandFor rules.now net.now stranger.now }
    ensures { IfOk result (IsExposure rules.now stranger.now) }
{
    let permitted = net.permitted(alloc, rules.namespace(), stranger)?;
    let layer = rules.layer(alloc, stranger, permitted)?;
    let conns = verdict_set(alloc, &layer)?;
    Ok(conns)
}
