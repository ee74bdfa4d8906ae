//! What a list of parts says of all spots, whatever the tiers below say.
ghost use Rattle.std.specs.Prelude.{◌≡◌, ◌&&◌, ◌<◌, Bool, Option, Some, None, if◌then◌else◌, IfOk, length};
ghost use Rattle.std.specs.Option.{option_or};
ghost use Rattle.np_tiers.specs.Runs.{first_action, first_allows, IsRun};
ghost use Rattle.np_model.specs.declared.admin_policy.Action.{Action as TierAction};

use crate::tier_rule::TierRule;
use np_base::{Cells, NoMemory};
use np_model::Action;
use std::alloc::Global;

/// What a list of parts makes of the spots. The first part that has a spot says.
#[derive(Drop)]
pub(crate) struct Run<S> {
    // The spots that it allows.
    pub allowed: S,
    // The spots that it denies.
    pub denied: S,
    // The spots that some part has. Those that are neither allowed nor denied are passed on.
    pub met: S,
}

impl<S: Cells> Run<S> {
    /// The run of one part.
    fn of_part<P: TierRule<S>>(alloc: Global, part: &P) -> Result<Run<S>, NoMemory>
        ensures { IfOk result (IsRun S.has (λ spot.
            if S.has (P.set_of part.now) spot then Some (P.action_of part.now) else None)) }
    {
        let set = part.set();
        let action = part.action();
        Ok(Run {
            allowed: copy_if(alloc, set, action == Action::Allow)?,
            denied: copy_if(alloc, set, action == Action::Deny)?,
            met: set.copy()?,
        })
    }

    /// The run of the parts of this run and, after them, those of the later one.
    fn then(&self, later: &Run<S>) -> Result<Run<S>, NoMemory>
        ensures { IfOk result (λ made. (before after : S.Spot → Option TierAction) →
            IsRun S.has before self.now → IsRun S.has after later.now →
            IsRun S.has (λ spot. option_or (before spot) (after spot)) made) }
    {
        Ok(Run {
            allowed: self.allowed.join(&later.allowed.minus(&self.met)?)?,
            denied: self.denied.join(&later.denied.minus(&self.met)?)?,
            met: self.met.join(&later.met)?,
        })
    }

    /// What the tier of these parts allows over lower tiers that allow `lower`.
    pub(crate) fn over(&self, lower: &S) -> Result<S, NoMemory>
        ensures members { IfOk result (λ made. (first : S.Spot → Option TierAction) → IsRun S.has first self.now →
            (spot : S.Spot) → S.has made spot ≡ first_allows (first spot) (S.has lower.now spot)) }
        ensures well { IfOk result S.IsWell }
    {
        let left = lower.minus(&self.denied)?;
        left.join(&self.allowed)
    }
}

// The set, or nothing where it is not wanted.
fn copy_if<S: Cells>(alloc: Global, set: &S, is_wanted: bool) -> Result<S, NoMemory>
    ensures { IfOk result (λ made. (spot : S.Spot) → S.has made spot ≡ (is_wanted && S.has set.now spot)) }
{
    if is_wanted {
        set.copy()
    } else {
        S::nothing(alloc)
    }
}

/// The run of a list of parts, of which there is one at least. The two halves of the list are put together, each
/// made in the same way, so that n parts of a few ranges each take time n log n.
pub(crate) fn run_of<S: Cells, P: TierRule<S>>(
    alloc: Global,
    parts: &[P],
) -> Result<Run<S>, NoMemory>
    requires { 0 < length parts.now }
    ensures { IfOk result (IsRun S.has (λ spot.
        first_action P.set_of P.action_of (λ set. S.has set spot) parts.now)) }
{
    match parts {
        [part] => Run::of_part(alloc, part),
        _ => {
            let (front, back) = parts.split_at(parts.len() / 2);
            let run = run_of(alloc, front)?.then(&run_of(alloc, back)?)?;
            Ok(run)
        }
    }
}
