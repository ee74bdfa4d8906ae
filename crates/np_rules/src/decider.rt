//! What decides a packet at one of its ends.

use crate::policy_names::PolicyNames;
use np_base::Text;

/// A rule, by the name of its policy and its place among the policy's rules of the direction, from 0. A NetworkPolicy is
/// named `namespace/name`.
#[derive(Drop)]
pub struct RuleName {
    pub policy: Text,
    pub place: u64,
}

/// What decides a packet at one of its ends. Where `pass` is there, an admin rule with `Pass` was met first.
pub enum Decider {
    /// The end is an address, which has no side of its own.
    NoSide,
    /// A rule of an AdminNetworkPolicy.
    Admin {
        rule: RuleName,
        allow: bool,
    },
    /// The first matching rule of the NetworkPolicies that select the pod, by policy name and place.
    Net {
        pass: Option<RuleName>,
        rule: RuleName,
    },
    /// These NetworkPolicies isolate the pod, and no rule of them matches.
    Isolated {
        pass: Option<RuleName>,
        policies: PolicyNames,
    },
    /// A rule of the BaselineAdminNetworkPolicy.
    Base {
        pass: Option<RuleName>,
        rule: RuleName,
        allow: bool,
    },
    /// No rule: everything is allowed.
    Free {
        pass: Option<RuleName>,
    },
}

// Written out, so that letting one go is one call.
impl Drop for Decider {
    fn drop(self) {
        match self {
            Decider::NoSide => {}
            Decider::Admin {
                rule: _rule,
                allow: _allow,
            } => {}
            Decider::Net {
                pass: _pass,
                rule: _rule,
            } => {}
            Decider::Isolated {
                pass: _pass,
                policies: _policies,
            } => {}
            Decider::Base {
                pass: _pass,
                rule: _rule,
                allow: _allow,
            } => {}
            Decider::Free { pass: _pass } => {}
        }
    }
}
