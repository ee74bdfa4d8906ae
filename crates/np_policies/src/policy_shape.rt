//! Which policy an object is, and what it is read as.
ghost use Rattle.np_model.specs.Prelude.{option_all};
ghost use Rattle.std.specs.Prelude.{◌≡◌, true, IfOk};
ghost use Rattle.serde_json.specs.View.{view};
ghost use Rattle.np_json.specs.Prelude.{Gives, GivesItem};
ghost use Rattle.np_policies.specs.Policies as shapes;
ghost use Rattle.np_policies.specs.Policies.{policy_of};
ghost use Rattle.np_policies.specs.WellFormed.{is_well_policy};

use crate::admin_policy_shape::{AdminPolicyShape, BasePolicyShape};
use crate::net_policy_shape::NetPolicyShape;
use crate::policy::Policy;
use np_json::{
    FaultKind, ReadFault, Shape, ShapeFault, TypeMeta, TypeMetaShape, at, read_item, refuse,
};
use serde_json::Value;
use std::alloc::Global;

/// The policy that an item of a list of objects is: a NetworkPolicy of `networking.k8s.io/v1`, or an
/// AdminNetworkPolicy or BaselineAdminNetworkPolicy of `policy.networking.k8s.io/v1alpha1`. `None` where the item is
/// an object whose `kind` does not end in `NetworkPolicy`. A fault is the first one of the item, by the order of the
/// members in its shape. A policy that is read is well formed: names are names, keys of selectors are words that are not
/// empty, and so on (`policies_are_well_formed` of np_meaning tells all of it).
pub fn read_policy(alloc: Global, item: u64, value: &Value) -> Result<Option<Policy>, ReadFault>
    ensures shape { GivesItem item result (policy_of (view value.now)) }
    ensures well { IfOk result (λ read. option_all is_well_policy read ≡ true) }
{
    read_item(alloc, item, value, &PolicyShape)
}

// The shape of an object of any kind: that of the policy that it is. A kind that ends in `NetworkPolicy` and is none
// of the three is `ForeignPolicy`.
#[derive(Drop)]
struct PolicyShape;

impl Shape for PolicyShape {
    type Output = Option<Policy>;

    ghost reads = { λ _. shapes.policy_of };

    #[tactic(auto, unfolding(crate::specs::Policies::policy_of))]
    fn read(&self, alloc: Global, value: &Value) -> Result<Option<Policy>, ShapeFault> {
        let meta = TypeMetaShape.read(alloc, value)?;
        policy_by(alloc, policy_kind(&meta), value)
    }
}

/// The kinds of objects that are told apart.
#[derive(Clone, Copy)]
pub enum PolicyKind {
    Net,
    Admin,
    Base,
    /// A network policy of a kind or version that is not read.
    Foreign,
    NoPolicy,
}

// The policy of that kind.
#[tactic(auto, unfolding(crate::specs::Policies::policy_by))]
fn policy_by(alloc: Global, kind: PolicyKind, value: &Value) -> Result<Option<Policy>, ShapeFault>
    ensures { Gives result (shapes.policy_by kind (view value.now)) }
{
    match kind {
        PolicyKind::Net => Ok(Some(Policy::Net(NetPolicyShape.read(alloc, value)?))),
        PolicyKind::Admin => Ok(Some(Policy::Admin(AdminPolicyShape.read(alloc, value)?))),
        PolicyKind::Base => Ok(Some(Policy::Base(BasePolicyShape.read(alloc, value)?))),
        PolicyKind::Foreign => at("kind", refuse(alloc, FaultKind::ForeignPolicy)),
        PolicyKind::NoPolicy => Ok(None),
    }
}

// Which policy an object is, by its version and kind.
fn policy_kind(meta: &TypeMeta) -> PolicyKind
    ensures { result ≡ shapes.policy_kind meta.now }
{
    if is_of(meta, "networking.k8s.io/v1", "NetworkPolicy") {
        PolicyKind::Net
    } else if is_of(
        meta,
        "policy.networking.k8s.io/v1alpha1",
        "AdminNetworkPolicy",
    ) {
        PolicyKind::Admin
    } else if is_of(
        meta,
        "policy.networking.k8s.io/v1alpha1",
        "BaselineAdminNetworkPolicy",
    ) {
        PolicyKind::Base
    } else if is_network_policy(meta.kind.as_str()) {
        PolicyKind::Foreign
    } else {
        PolicyKind::NoPolicy
    }
}

// Whether an object is of a version and kind.
fn is_of(meta: &TypeMeta, version: &str, kind: &str) -> bool
    ensures { result ≡ shapes.is_of_type version.now kind.now meta.now }
{
    meta.api_version.as_str() == version && meta.kind.as_str() == kind
}

// Whether a kind is a network policy of any sort.
fn is_network_policy(kind: &str) -> bool
    ensures { result ≡ shapes.is_network_policy kind.now }
{
    kind.as_bytes().ends_with(b"NetworkPolicy")
}
