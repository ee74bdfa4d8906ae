//! Policies whose rules may allow.
ghost use Rattle.std.specs.Prelude.{◌≡◌, Bool, false, ◌&&◌, ◌||◌};
ghost use Rattle.std.specs.List.{list_any};
ghost use Rattle.np_model.specs.declared.direction.Direction.{Direction};
ghost use Rattle.np_reach.specs.Reach as spec;
ghost use Rattle.np_reach.specs.Namespaces.{AreOfOneNamespace};
ghost use Rattle.np_rules.specs.Prelude.{ModelEnd, PodEnd, pod, pod_end};

use crate::concerns::{admin_rule_concerns, net_rule_concerns};
use np_addr::Family;
use np_model::{Action, AdminPolicy, AdminRule, Direction, NetPolicy, Pod};
use np_rules::{
    admin_policy_selects, admin_rule_reaches, admin_rules_of, net_policy_selects, net_rule_reaches,
    net_rules_of,
};

/// A policy whose rules may allow what the side of a pod that it selects lets through.
pub(crate) trait Speaker {
    /// Whether it selects a pod.
    ghost picks: { Self → PodEnd → Bool };

    /// Whether it may select pods of a pod's namespace.
    ghost may_pick: { Self → PodEnd → Bool };

    /// Where it may not, it selects no pod of the namespace.
    ghost unpicked_elsewhere: { (policy : Self) (one near : PodEnd) → AreOfOneNamespace one near
        → may_pick policy one ≡ false → picks policy near ≡ false };

    /// Whether some rule of a direction allows, and speaks of a far end.
    ghost speaks: { Direction → ModelEnd → Self → Bool };

    /// Whether some rule of a direction allows, and may speak of pods of a pod's namespace.
    ghost concerns: { Direction → PodEnd → Self → Bool };

    /// Where none may, it speaks of no pod of the namespace.
    ghost silent_elsewhere: { (policy : Self) (direction : Direction) (one far : PodEnd) → AreOfOneNamespace one far
        → concerns direction one policy ≡ false → speaks direction (pod far) policy ≡ false };

    /// Whether it may select pods of a pod's namespace.
    fn may_select(&self, one: &Pod) -> bool
        ensures { result ≡ may_pick self.now (pod_end one.now) };

    /// Whether it selects a pod.
    fn selects(&self, near: &Pod) -> bool
        ensures { result ≡ picks self.now (pod_end near.now) };

    /// Whether some rule of a direction allows, and speaks of a pod.
    fn reaches(&self, direction: Direction, far: &Pod) -> bool
        ensures { result ≡ speaks direction (pod (pod_end far.now)) self.now };

    /// Whether some rule of a direction allows, and may speak of pods of a pod's namespace.
    fn may_reach(&self, direction: Direction, one: &Pod) -> bool
        ensures { result ≡ concerns direction (pod_end one.now) self.now };
}

impl Speaker for NetPolicy {
    ghost use Rattle.np_reach.specs.Namespaces.{is_of_namespace, net_concerns, net_silent_elsewhere, net_unpicked_elsewhere};
    ghost use Rattle.np_reach.specs.Reach.{net_reaches};
    ghost use Rattle.np_rules.specs.model.Selection.{net_selects};

    ghost picks = { net_selects };

    ghost may_pick = { is_of_namespace };

    ghost unpicked_elsewhere = { net_unpicked_elsewhere };

    ghost speaks = { net_reaches };

    ghost concerns = { net_concerns };

    ghost silent_elsewhere = { net_silent_elsewhere };

    fn may_select(&self, one: &Pod) -> bool {
        self.namespace.as_str() == one.namespace.as_str()
    }

    fn selects(&self, near: &Pod) -> bool {
        net_policy_selects(self, near)
    }

    fn reaches(&self, direction: Direction, far: &Pod) -> bool {
        match net_rules_of(self, direction) {
            Some(rules) => rules.iter().any(|rule| net_rule_reaches(
                self.namespace.as_str(),
                rule,
                far,
            )),
            None => false,
        }
    }

    fn may_reach(&self, direction: Direction, one: &Pod) -> bool {
        match net_rules_of(self, direction) {
            Some(rules) => rules.iter().any(|rule| net_rule_concerns(
                self.namespace.as_str(),
                rule,
                one,
            )),
            None => false,
        }
    }
}

impl Speaker for AdminPolicy {
    ghost use Rattle.np_reach.specs.Namespaces.{admin_concerns, admin_silent_elsewhere, admin_unpicked_elsewhere, selects_namespace};
    ghost use Rattle.np_reach.specs.Reach.{admin_reaches};
    ghost use Rattle.np_rules.specs.model.Selection.{subject_selects};

    ghost picks = { λ policy near. subject_selects policy.subject near };

    ghost may_pick = { selects_namespace };

    ghost unpicked_elsewhere = { admin_unpicked_elsewhere };

    ghost speaks = { admin_reaches };

    ghost concerns = { admin_concerns };

    ghost silent_elsewhere = { admin_silent_elsewhere };

    fn may_select(&self, one: &Pod) -> bool {
        self.subject.namespaces.meets(one.namespace_labels.labels())
    }

    fn selects(&self, near: &Pod) -> bool {
        admin_policy_selects(&self.subject, near)
    }

    fn reaches(&self, direction: Direction, far: &Pod) -> bool {
        admin_rules_of(self, direction)
            .iter()
            .any(|rule| allows_with(rule, far))
    }

    fn may_reach(&self, direction: Direction, one: &Pod) -> bool {
        admin_rules_of(self, direction)
            .iter()
            .any(|rule| admin_rule_concerns(rule, one))
    }
}

// Whether an admin rule allows, and speaks of a pod in packets of some family.
fn allows_with(rule: &AdminRule, far: &Pod) -> bool
    ensures { result ≡ spec.admin_rule_reaches (pod (pod_end far.now)) rule.now }
{
    match rule.action {
        Action::Allow => {
            admin_rule_reaches(rule, far, Family::Four)
                || admin_rule_reaches(rule, far, Family::Six)
        }
        Action::Deny | Action::Pass => false,
    }
}
