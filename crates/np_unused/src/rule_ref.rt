//! A rule of an estate, by its place.

use np_model::Direction;

/// The kinds of policies.
#[derive(Clone, Copy, PartialEq, Eq)]
pub enum Tier {
    /// AdminNetworkPolicies.
    Admin,
    /// NetworkPolicies.
    Net,
    /// The BaselineAdminNetworkPolicy.
    Base,
}

/// A rule, by the kind of its policy, the policy's place in the estate's list of that kind, its direction, and its place
/// among the policy's rules of the direction. Places count from 0. The baseline, of which there is one at most, has the
/// place 0.
#[derive(Clone, Copy, PartialEq, Eq)]
pub struct RuleRef {
    pub tier: Tier,
    pub policy: u32,
    pub direction: Direction,
    pub place: u64,
}
