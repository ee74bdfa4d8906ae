//! How ingresses and their backends are read.
ghost use Rattle.std.specs.Prelude.{◌≡◌, codes};
ghost use Rattle.serde_json.specs.View.{view};
ghost use Rattle.np_json.specs.Prelude.{Gives, text_of, whole_of};
ghost use Rattle.np_objects.specs.Ingresses as ingresses;

use crate::lists::{joined, put_first};
use np_base::Seq;
use np_json::{
    AnyText, FaultKind, Field, NamespacedName, NamespacedNameShape, Port, Shape, ShapeFault,
    has_one_of, listed, must_be_object, optional, refuse_if, required, text_field, whole_field,
};
use np_model::{Backend, IngressItem, PortName};
use serde_json::Value;
use std::alloc::Global;

/// A port of a service that an ingress leads to (Kubernetes API reference, ServiceBackendPort).
///
/// | member | what it is |
/// |---|---|
/// | first | exactly one of `number` (0 counts as missing) and `name` (empty counts as missing), else BadField |
/// | `number` | a port |
/// | `name` | a text |
#[derive(Drop)]
struct BackendPortShape;

impl Shape for BackendPortShape {
    ghost use Rattle.np_objects.specs.Ingresses.{backend_port};

    type Output = PortName;

    ghost reads = { λ _. backend_port };

    #[tactic(auto, unfolding(crate::specs::Ingresses::backend_port))]
    fn read(&self, alloc: Global, value: &Value) -> Result<PortName, ShapeFault> {
        must_be_object(alloc, value)?;
        let numbered = is_numbered(value);
        let named = is_named(value);
        refuse_if(alloc, !is_one(numbered, named), FaultKind::BadField)?;
        number_or_name(alloc, numbered, value)
    }
}

// Whether there is a number; the number 0 counts as missing.
fn is_numbered(port: &Value) -> bool
    ensures { result ≡ ingresses.is_numbered (whole_of (codes "number") (view port.now)) }
{
    match whole_field(port, "number") {
        Field::Missing => false,
        Field::Wrong => true,
        Field::Given(number) => number != 0,
    }
}

// Whether there is a name; the empty one counts as missing.
fn is_named(port: &Value) -> bool
    ensures { result ≡ ingresses.has_a_name (text_of (codes "name") (view port.now)) }
{
    match text_field(port, "name") {
        Field::Missing => false,
        Field::Wrong => true,
        Field::Given(name) => !name.is_empty(),
    }
}

// Whether exactly one of the two holds.
fn is_one(first: bool, second: bool) -> bool
    ensures { result ≡ ingresses.is_one first second }
{
    first != second
}

// The one that is there of a number and a name.
fn number_or_name(alloc: Global, numbered: bool, port: &Value) -> Result<PortName, ShapeFault>
    ensures { Gives result (ingresses.number_or_name numbered (view port.now)) }
{
    if numbered {
        let number = required(alloc, port, "number", &Port)?;
        Ok(PortName::Number(number))
    } else {
        let name = required(alloc, port, "name", &AnyText)?;
        Ok(PortName::Named(name))
    }
}

/// A service that an ingress leads to (Kubernetes API reference, IngressServiceBackend).
///
/// | member | what it is |
/// |---|---|
/// | `name` | a text, required |
/// | `port` | a port of the service, required |
#[derive(Drop)]
struct BackendServiceShape;

impl Shape for BackendServiceShape {
    ghost use Rattle.np_objects.specs.Ingresses.{backend_service};

    type Output = Backend;

    ghost reads = { λ _. backend_service };

    #[tactic(auto, unfolding(crate::specs::Ingresses::backend_service))]
    fn read(&self, alloc: Global, value: &Value) -> Result<Backend, ShapeFault> {
        must_be_object(alloc, value)?;
        let name = required(alloc, value, "name", &AnyText)?;
        let port = required(alloc, value, "port", &BackendPortShape)?;
        Ok(Backend::Service { name, port })
    }
}

/// What an ingress leads to (Kubernetes API reference, IngressBackend).
///
/// | member | what it is |
/// |---|---|
/// | first | exactly one of `service` and `resource` is there, else BadField |
/// | `service` | a service and one of its ports |
#[derive(Drop)]
struct BackendShape;

impl Shape for BackendShape {
    ghost use Rattle.np_objects.specs.Ingresses.{backend};

    type Output = Backend;

    ghost reads = { λ _. backend };

    #[tactic(auto, unfolding(crate::specs::Ingresses::backend))]
    fn read(&self, alloc: Global, value: &Value) -> Result<Backend, ShapeFault> {
        must_be_object(alloc, value)?;
        let is_one = has_one_of(value, &["service", "resource"]);
        refuse_if(alloc, !is_one, FaultKind::BadField)?;
        let service = optional(alloc, value, "service", &BackendServiceShape)?;
        Ok(service.unwrap_or(Backend::Resource))
    }
}

/// An item of `paths` (Kubernetes API reference, HTTPIngressPath).
///
/// | member | what it is |
/// |---|---|
/// | `backend` | what the path leads to, required |
#[derive(Drop)]
struct PathShape;

impl Shape for PathShape {
    ghost use Rattle.np_objects.specs.Ingresses.{path};

    type Output = Backend;

    ghost reads = { λ _. path };

    #[tactic(auto, unfolding(crate::specs::Ingresses::path))]
    fn read(&self, alloc: Global, value: &Value) -> Result<Backend, ShapeFault> {
        must_be_object(alloc, value)?;
        required(alloc, value, "backend", &BackendShape)
    }
}

/// The paths of a rule (Kubernetes API reference, HTTPIngressRuleValue).
///
/// | member | what it is |
/// |---|---|
/// | `paths` | a list of paths |
#[derive(Drop)]
struct HttpShape;

impl Shape for HttpShape {
    ghost use Rattle.np_objects.specs.Ingresses.{http};

    type Output = Seq<Backend>;

    ghost reads = { λ _. http };

    #[tactic(auto, unfolding(crate::specs::Ingresses::http))]
    fn read(&self, alloc: Global, value: &Value) -> Result<Seq<Backend>, ShapeFault> {
        must_be_object(alloc, value)?;
        listed(alloc, value, "paths", &PathShape)
    }
}

/// An item of `rules` (Kubernetes API reference, IngressRule).
///
/// | member | what it is |
/// |---|---|
/// | `http` | the paths of the rule |
#[derive(Drop)]
struct RuleShape;

impl Shape for RuleShape {
    ghost use Rattle.np_objects.specs.Ingresses.{rule};

    type Output = Seq<Backend>;

    ghost reads = { λ _. rule };

    #[tactic(auto, unfolding(crate::specs::Ingresses::rule))]
    fn read(&self, alloc: Global, value: &Value) -> Result<Seq<Backend>, ShapeFault> {
        must_be_object(alloc, value)?;
        let backends = optional(alloc, value, "http", &HttpShape)?;
        Ok(backends.unwrap_or(Seq::new(alloc)))
    }
}

/// The spec of an ingress (Kubernetes API reference, IngressSpec).
///
/// | member | what it is |
/// |---|---|
/// | `defaultBackend` | what requests lead to that no rule takes |
/// | `rules` | a list of rules |
#[derive(Drop)]
struct IngressSpecShape;

impl Shape for IngressSpecShape {
    ghost use Rattle.np_objects.specs.Ingresses.{ingress_spec};

    type Output = Seq<Backend>;

    ghost reads = { λ _. ingress_spec };

    #[tactic(auto, unfolding(crate::specs::Ingresses::ingress_spec))]
    fn read(&self, alloc: Global, value: &Value) -> Result<Seq<Backend>, ShapeFault> {
        must_be_object(alloc, value)?;
        let first = optional(alloc, value, "defaultBackend", &BackendShape)?;
        let rules = listed(alloc, value, "rules", &RuleShape)?;
        let others = joined(alloc, rules)?;
        Ok(put_first(first, others)?)
    }
}

/// An ingress (Kubernetes API reference, Ingress).
///
/// | member | what it is |
/// |---|---|
/// | `metadata` | the metadata of an object in a namespace, required |
/// | `spec` | the spec of an ingress |
#[derive(Drop)]
pub(crate) struct IngressShape;

impl Shape for IngressShape {
    ghost use Rattle.np_objects.specs.Ingresses.{ingress};

    type Output = IngressItem;

    ghost reads = { λ _. ingress };

    #[tactic(auto, unfolding(crate::specs::Ingresses::ingress))]
    fn read(&self, alloc: Global, value: &Value) -> Result<IngressItem, ShapeFault> {
        let own = required(alloc, value, "metadata", &NamespacedNameShape)?;
        let backends = optional(alloc, value, "spec", &IngressSpecShape)?;
        Ok(ingress_item(own, backends.unwrap_or(Seq::new(alloc))))
    }
}

// The ingress of what was read of its members.
fn ingress_item(own: NamespacedName, backends: Seq<Backend>) -> IngressItem
    ensures { result ≡ ingresses.ingress_item own backends }
{
    IngressItem {
        namespace: own.namespace,
        name: own.name,
        backends,
    }
}
