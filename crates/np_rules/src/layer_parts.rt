//! The tiers of a layer, for any kind of far ends.
ghost use Rattle.std.specs.Prelude.{◌≡◌, map, IfOk};
ghost use Rattle.np_rules.specs.Prelude.{IsAdminPart, IsBasePart, IsSetOf, Pairwise, is_allow, net_rule_matches};

use crate::far_ends::FarEnds;
use np_base::{Cells, NoMemory, Seq};
use np_model::{Action, AdminRule, NetRule};
use np_tiers::{AdminPart, BasePart};
use std::alloc::Global;

/// The parts of the rules of AdminNetworkPolicies.
pub(crate) fn admin_parts<S: Cells, F: FarEnds<S>>(
    alloc: Global,
    rules: &[&AdminRule],
    far: &F,
) -> Result<Seq<AdminPart<S>>, NoMemory>
    ensures { IfOk result (λ parts. Pairwise (IsAdminPart S.has S.in_space (F.contact_at far.now))
        parts (map (λ rule. rule.now) rules.now)) }
{
    let mut parts: Vec<AdminPart<S>> = Vec::new(alloc);
    for rule in rules {
        let mut set = far.admin_set(alloc, rule)?;
        far.share(parts.last().map(|part| &part.set), &mut set)?;
        parts.push(AdminPart {
            action: rule.action,
            set,
        })?;
    }
    Ok(Seq::from_vec(parts))
}

/// The sets of the rules of NetworkPolicies of this namespace.
pub(crate) fn net_sets<S: Cells, F: FarEnds<S>>(
    alloc: Global,
    namespace: &str,
    rules: &[&NetRule],
    far: &F,
) -> Result<Seq<S>, NoMemory>
    ensures { IfOk result (λ sets. Pairwise (IsSetOf S.has S.in_space (F.contact_at far.now))
        sets (map (λ rule. net_rule_matches namespace.now rule.now) rules.now)) }
{
    let mut sets = Vec::new(alloc);
    for rule in rules {
        let mut set = far.net_set(alloc, namespace, rule)?;
        far.share(sets.last(), &mut set)?;
        sets.push(set)?;
    }
    Ok(Seq::from_vec(sets))
}

/// The parts of the rules of the baseline.
pub(crate) fn base_parts<S: Cells, F: FarEnds<S>>(
    alloc: Global,
    rules: &[AdminRule],
    far: &F,
) -> Result<Seq<BasePart<S>>, NoMemory>
    ensures { IfOk result (λ parts. Pairwise (IsBasePart S.has S.in_space (F.contact_at far.now)) parts rules.now) }
{
    let mut parts = Vec::new(alloc);
    for rule in rules {
        let set = far.admin_set(alloc, rule)?;
        parts.push(BasePart {
            allow: is_allow(rule.action),
            set,
        })?;
    }
    Ok(Seq::from_vec(parts))
}

/// Whether a rule of this action allows what it matches (network-policy-api reference, AdminNetworkPolicyRuleAction).
pub fn is_allow(action: Action) -> bool
    ensures { result ≡ is_allow action }
{
    action == Action::Allow
}
