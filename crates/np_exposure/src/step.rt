//! One requirement of the walk.
ghost use Rattle.std.specs.Prelude.{IfOk, IfSome, OnOk};
ghost use Rattle.np_exposure.specs.steps.Case.{PermitSame};
ghost use Rattle.np_exposure.specs.steps.States.{IsState};
ghost use Rattle.np_exposure.specs.steps.Walks.{IsFork, IsStepTo};

use crate::choices::{KeyChoices, can_be, count, narrowed};
use crate::open_rules::OpenRules;
use crate::sided_requirement::SidedRequirement;
use np_base::NoMemory;
use std::alloc::Global;

/// A case of the requirements that are asked so far: what is left on the way down the walk.
#[derive(Drop)]
pub(crate) struct Case<'a, 'r> {
    /// The choices.
    pub state: Vec<KeyChoices<'a>>,
    /// The rules of NetworkPolicies, as far as the choices settle them.
    pub net: OpenRules<'r>,
}

/// The case of a requirement that has fewer choices.
#[derive(Drop)]
pub(crate) struct Aside<'a, 'r> {
    /// Whether it is the case that the requirement is met.
    pub wanted: bool,
    pub case: Case<'a, 'r>,
}

/// Asks one requirement more. Where it can be both met and missed, the case with fewer choices is put aside, and the other is
/// left; else nothing changes.
pub(crate) fn next_step<'a, 'r>(
    alloc: Global,
    namespace: &str,
    requirement: &SidedRequirement,
    case: &mut Case<'a, 'r>,
) -> Result<Option<Aside<'a, 'r>>, NoMemory>
    requires { IsState case.old.state.items }
    ensures step { IfOk result (λ made. IsStepTo requirement.now case.old.state.items case.new.state.items made) }
    ensures next { IfOk result (λ made. IsState case.new.state.items) }
    ensures aside { IfOk result (λ made. IfSome made (λ aside. IsState aside.case.state.items)) }
    ensures net { OnOk result (PermitSame namespace.now case.old.net case.new) }
    ensures aside_net { IfOk result (λ made. IfSome made (λ aside. PermitSame namespace.now case.old.net aside.case)) }
{
    let can_meet = can_be(&case.state, requirement, true);
    let can_miss = can_be(&case.state, requirement, false);
    if !(can_meet & can_miss) {
        return Ok(None);
    }
    let met = narrowed(alloc, &case.state, requirement, true)?;
    let unmet = narrowed(alloc, &case.state, requirement, false)?;
    fork(alloc, namespace, requirement, case, met, unmet)
}

// The case with fewer choices is put aside, and the other is left.
fn fork<'a, 'r>(
    alloc: Global,
    namespace: &str,
    requirement: &SidedRequirement,
    case: &mut Case<'a, 'r>,
    met: Vec<KeyChoices<'a>>,
    unmet: Vec<KeyChoices<'a>>,
) -> Result<Option<Aside<'a, 'r>>, NoMemory>
    ensures fork { IfOk result (λ made. IsFork met.entry.items unmet.entry.items case.new.state.items made) }
    ensures net { OnOk result (PermitSame namespace.now case.old.net case.new) }
    ensures aside_net { IfOk result (λ made. IfSome made (λ aside. PermitSame namespace.now case.old.net aside.case)) }
{
    let wanted = count(&met) <= count(&unmet);
    let (state, next) = if wanted { (met, unmet) } else { (unmet, met) };
    let net = case.net.settled_by(alloc, namespace, &state, requirement)?;
    case.net.settle(alloc, namespace, &next, requirement)?;
    case.state = next;
    Ok(Some(Aside {
        wanted,
        case: Case { state, net },
    }))
}
