//! The layer of one pod and direction: the rules of its tiers as sets.

use np_base::Seq;
use np_model::Action;

/// A rule of an AdminNetworkPolicy, with the set of spots that it matches. `Pass` leaves them to the tiers below, past all further
/// admin rules.
#[derive(Debug, Drop)]
pub struct AdminPart<S> {
    pub action: Action,
    pub set: S,
}

/// A rule of the BaselineAdminNetworkPolicy, with the set of spots that it matches.
#[derive(Debug, Drop)]
pub struct BasePart<S> {
    pub allow: bool,
    pub set: S,
}

/// The rules that speak of one pod in one direction, each tier in the order in which it is looked at: the rules of
/// AdminNetworkPolicies, the sets that the rules of NetworkPolicies match, the rules of the baseline. `isolated` says
/// whether some NetworkPolicy selects the pod for this direction.
#[derive(Debug, Drop)]
pub struct Layer<S> {
    pub admin: Seq<AdminPart<S>>,
    pub isolated: bool,
    pub net: Seq<S>,
    pub base: Seq<BasePart<S>>,
}
