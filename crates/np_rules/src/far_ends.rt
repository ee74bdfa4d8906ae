//! The far ends that a layer is made for.
ghost use Rattle.std.specs.Prelude.{◌≡◌, IfOk};
ghost use Rattle.np_rules.specs.model.Ends.{Contact};
ghost use Rattle.np_rules.specs.Layers.{IsSetOf};
ghost use Rattle.np_rules.specs.model.Rules.{admin_rule_matches, net_rule_matches};

use np_base::{Cells, NoMemory};
use np_model::{AdminRule, NetRule};
use std::alloc::Global;

/// The far ends that a layer is made for: what each spot of a kind of set stands for, and so which spots a rule
/// matches.
pub(crate) trait FarEnds<S: Cells> {
    /// What the side looks at where a spot is asked for.
    ghost contact_at: { Self → S.Spot → Contact };

    /// The spots that an admin rule matches.
    fn admin_set(&self, alloc: Global, rule: &AdminRule) -> Result<S, NoMemory>
        ensures { IfOk result (λ set.
            IsSetOf S.has S.in_space (contact_at self.now) set (admin_rule_matches rule.now)) };

    /// The spots that a rule of a NetworkPolicy of this namespace matches.
    fn net_set(&self, alloc: Global, namespace: &str, rule: &NetRule) -> Result<S, NoMemory>
        ensures { IfOk result (λ set.
            IsSetOf S.has S.in_space (contact_at self.now) set (net_rule_matches namespace.now rule.now)) };

    /// Leaves the set of a rule as it is. Where it is large and that of the rule before, both are held once from now on.
    fn share(&self, before: Option<&S>, set: &mut S) -> Result<(), NoMemory>
        ensures { set.new ≡ set.old };
}
