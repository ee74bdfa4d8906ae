//! AdminNetworkPolicies and the BaselineAdminNetworkPolicy.
ghost use Rattle.np_json.specs.Prelude.{Gives};
ghost use Rattle.np_policies.specs.AdminPolicies as shapes;

use crate::admin_rule_shape::{AdminKind, admin_rules};
use crate::subject_shape::SubjectShape;
use np_base::{Seq, Text};
use np_json::{
    FaultKind, Name, Shape, ShapeFault, must_be_object, of_type, refuse, refuse_member_if, required,
};
use np_model::{AdminPolicy, AdminRule, BasePolicy, Direction, Subject};
use serde_json::Value;
use std::alloc::Global;

/// The shape of an AdminNetworkPolicy (network-policy-api reference, AdminNetworkPolicy): `metadata` and `spec`, both
/// required.
#[derive(Drop)]
pub(crate) struct AdminPolicyShape;

impl Shape for AdminPolicyShape {
    type Output = AdminPolicy;

    ghost reads = { λ _. shapes.admin_policy };

    #[tactic(auto, unfolding(crate::specs::AdminPolicies::admin_policy))]
    fn read(&self, alloc: Global, value: &Value) -> Result<AdminPolicy, ShapeFault> {
        let name = required(alloc, value, "metadata", &ObjectName)?;
        let spec = required(alloc, value, "spec", &AdminSpecShape)?;
        Ok(AdminPolicy {
            name,
            priority: spec.priority,
            subject: spec.subject,
            ingress: spec.ingress,
            egress: spec.egress,
        })
    }
}

/// The shape of a BaselineAdminNetworkPolicy (network-policy-api reference, BaselineAdminNetworkPolicy): `metadata`,
/// with the name `default`, and `spec`, both required.
#[derive(Drop)]
pub(crate) struct BasePolicyShape;

impl Shape for BasePolicyShape {
    type Output = BasePolicy;

    ghost reads = { λ _. shapes.base_policy };

    #[tactic(auto, unfolding(crate::specs::AdminPolicies::base_policy))]
    fn read(&self, alloc: Global, value: &Value) -> Result<BasePolicy, ShapeFault> {
        required(alloc, value, "metadata", &BaseName)?;
        required(alloc, value, "spec", &BaseSpecShape)
    }
}

// The shape of `metadata` of an object in no namespace: `name`, which is required.
#[derive(Drop)]
struct ObjectName;

impl Shape for ObjectName {
    type Output = Text;

    ghost reads = { λ _. shapes.object_name };

    #[tactic(auto, unfolding(crate::specs::AdminPolicies::object_name))]
    fn read(&self, alloc: Global, value: &Value) -> Result<Text, ShapeFault> {
        must_be_object(alloc, value)?;
        required(alloc, value, "name", &Name)
    }
}

// The same, where the name is `default`. Another name is `BaselineName`.
#[derive(Drop)]
struct BaseName;

impl Shape for BaseName {
    type Output = Text;

    ghost reads = { λ _. shapes.base_name };

    #[tactic(auto, unfolding(crate::specs::AdminPolicies::base_name))]
    fn read(&self, alloc: Global, value: &Value) -> Result<Text, ShapeFault> {
        let name = ObjectName.read(alloc, value)?;
        let is_default = name.as_str() == "default";
        refuse_member_if(alloc, "name", !is_default, FaultKind::BaselineName)?;
        Ok(name)
    }
}

/// The members of `spec` of an AdminNetworkPolicy.
#[derive(Drop)]
pub struct AdminSpec {
    pub priority: u16,
    pub subject: Subject,
    pub ingress: Seq<AdminRule>,
    pub egress: Seq<AdminRule>,
}

// The shape of `spec` of an AdminNetworkPolicy (network-policy-api reference, AdminNetworkPolicySpec): `priority` and
// `subject`, which are required, `ingress` and `egress`.
#[derive(Drop)]
struct AdminSpecShape;

impl Shape for AdminSpecShape {
    type Output = AdminSpec;

    ghost reads = { λ _. shapes.admin_spec };

    #[tactic(auto, unfolding(crate::specs::AdminPolicies::admin_spec))]
    fn read(&self, alloc: Global, value: &Value) -> Result<AdminSpec, ShapeFault> {
        must_be_object(alloc, value)?;
        let priority = required(alloc, value, "priority", &Priority)?;
        let subject = required(alloc, value, "subject", &SubjectShape)?;
        let ingress = admin_rules(alloc, AdminKind::Admin, Direction::Ingress, value)?;
        let egress = admin_rules(alloc, AdminKind::Admin, Direction::Egress, value)?;
        Ok(AdminSpec {
            priority,
            subject,
            ingress,
            egress,
        })
    }
}

// The shape of `spec` of a BaselineAdminNetworkPolicy (network-policy-api reference,
// BaselineAdminNetworkPolicySpec): `subject`, which is required, `ingress` and `egress`.
#[derive(Drop)]
struct BaseSpecShape;

impl Shape for BaseSpecShape {
    type Output = BasePolicy;

    ghost reads = { λ _. shapes.base_spec };

    #[tactic(auto, unfolding(crate::specs::AdminPolicies::base_spec))]
    fn read(&self, alloc: Global, value: &Value) -> Result<BasePolicy, ShapeFault> {
        must_be_object(alloc, value)?;
        let subject = required(alloc, value, "subject", &SubjectShape)?;
        let ingress = admin_rules(alloc, AdminKind::Baseline, Direction::Ingress, value)?;
        let egress = admin_rules(alloc, AdminKind::Baseline, Direction::Egress, value)?;
        Ok(BasePolicy {
            subject,
            ingress,
            egress,
        })
    }
}

// A whole number from 0 to 1000. Another whole number is `BadPriority`.
#[derive(Drop)]
struct Priority;

impl Shape for Priority {
    type Output = u16;

    ghost reads = { λ _. shapes.priority };

    #[tactic(auto, unfolding(crate::specs::AdminPolicies::priority))]
    fn read(&self, alloc: Global, value: &Value) -> Result<u16, ShapeFault> {
        let number = of_type(alloc, value.as_i64())?;
        priority_of(alloc, number)
    }
}

fn priority_of(alloc: Global, number: i64) -> Result<u16, ShapeFault>
    ensures { Gives result (shapes.priority_number number) }
{
    if 0 <= number && number <= 1000 {
        Ok(number as u16)
    } else {
        refuse(alloc, FaultKind::BadPriority)
    }
}
