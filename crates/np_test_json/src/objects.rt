//! What items are read as that are no policies.

use crate::selectors::is_asked;
use np_addr::{Address, read_address};
use np_base::Text;
use np_conns::Proto;
use np_json::{FaultKind, ReadFault};
use np_labels::{Op, Pair, Selector};
use np_model::{Backend, IngressItem, NamedPort, PortName, ServiceItem, ServicePort};
use np_objects::{
    ControllerItem, ControllerKind, NamespaceItem, Object, OwnerRef, PodItem, Template, read_object,
};
use serde_json::Value;
use std::alloc::Global;
use std::process::Abort;

/// Objects, as a cluster prints them.
#[derive(Clone, Copy)]
enum Example {
    Pod,
    FailedPod,
    Namespace,
    Deployment,
    Service,
    Ingress,
    List,
    BadPod,
}

impl Example {
    fn text(self) -> &'static str {
        match self {
            Example::Pod => POD,
            Example::FailedPod => FAILED_POD,
            Example::Namespace => NAMESPACE,
            Example::Deployment => DEPLOYMENT,
            Example::Service => SERVICE,
            Example::Ingress => INGRESS,
            Example::List => r#"{"apiVersion": "v1", "kind": "PodList"}"#,
            Example::BadPod => BAD_POD,
        }
    }

    // Whether what was read is what the text says.
    fn is_read_as(self, read: &Result<Object, ReadFault>) -> bool {
        match (self, read) {
            (Example::Pod, Ok(Object::Pod(pod))) => is_web_pod(pod),
            (Example::FailedPod, Ok(Object::Pod(pod))) => pod.host_network && pod.finished,
            (Example::Namespace, Ok(Object::Namespace(namespace))) => is_shop(namespace),
            (Example::Deployment, Ok(Object::Controller(controller))) => is_web(controller),
            (Example::Service, Ok(Object::Service(service))) => is_web_service(service),
            (Example::Ingress, Ok(Object::Ingress(ingress))) => is_ingress(ingress),
            (Example::List, Ok(Object::Other)) => true,
            (Example::BadPod, Err(ReadFault::Bad(fault))) => {
                fault.item == 1 && fault.kind == FaultKind::BadName
            }
            _ => false,
        }
    }
}

// What an example is read as, as item 1 of a list.
fn read_example(rt: &impl Abort, alloc: Global, example: Example) -> Result<Object, ReadFault> {
    let value = Value::from_str(alloc, example.text()).expect(rt, "an object");
    read_object(alloc, 1, &value)
}

// Stops the test unless an example is read as what its text says. An object lives nowhere else, since each function that lets one go is
// dear to prove.
fn expect_read(rt: &impl Abort, alloc: Global, example: Example) {
    let read = read_example(rt, alloc, example);
    assert!(rt; example.is_read_as(&read), "{}", example.text());
}

#[test]
fn example_read_object(rt: HostRuntime) {
    let alloc = rt.alloc();
    expect_read(&rt, alloc, Example::Pod);
    expect_read(&rt, alloc, Example::FailedPod);
    expect_read(&rt, alloc, Example::Namespace);
    expect_read(&rt, alloc, Example::Deployment);
    expect_read(&rt, alloc, Example::Service);
    expect_read(&rt, alloc, Example::Ingress);
    expect_read(&rt, alloc, Example::List);
    expect_read(&rt, alloc, Example::BadPod);
}

static POD: &str = r#"{"apiVersion": "v1", "kind": "Pod",
    "metadata": {"annotations": {"note": "a b"}, "creationTimestamp": "2024-01-01T00:00:00Z",
        "generateName": "web-7d4-", "labels": {"tier": "front", "app": "web"},
        "managedFields": [{"manager": "kubelet", "fieldsV1": {"f:status": {}}}],
        "name": "web-7d4-x", "namespace": "shop",
        "ownerReferences": [
            {"apiVersion": "v1", "kind": "ConfigMap", "name": "c", "uid": "1"},
            {"apiVersion": "apps/v1", "blockOwnerDeletion": true, "controller": true,
                "kind": "ReplicaSet", "name": "web-7d4", "uid": "2"},
            {"apiVersion": "v1", "controller": true, "kind": "Node", "name": "n", "uid": "3"}]},
    "spec": {"containers": [
            {"image": "web", "ports": [
                {"containerPort": 8080, "name": "http", "protocol": "TCP"},
                {"containerPort": 9090, "protocol": "TCP"}]},
            {"image": "dns", "ports": [
                {"containerPort": 53, "name": "dns", "protocol": "UDP"},
                {"containerPort": 65535, "name": "last"}]}],
        "initContainers": [{"ports": [{"containerPort": 0, "name": "a b"}]}],
        "nodeName": "n", "restartPolicy": "Always"},
    "status": {"conditions": [{"lastProbeTime": null, "status": "True", "type": "Ready"}],
        "hostIP": "x", "phase": "Running", "podIP": "10.0.0.7",
        "podIPs": [{"ip": "10.0.0.7"}, {"ip": "FD00::7"}, {"ip": ""}, {"ip": "fd00::7"}]}}"#;

fn is_web_pod(pod: &PodItem) -> bool {
    pod.namespace.as_str() == "shop"
        && pod.name.as_str() == "web-7d4-x"
        && are_labels_of_web(pod.labels.pairs())
        && is_owner(&pod.owner, "ReplicaSet", "web-7d4")
        && are_ports_of_web(pod.ports.items())
        && are_addresses_of_web(pod.addresses.items())
        && !pod.host_network
        && !pod.finished
}

fn are_labels_of_web(labels: &[Pair]) -> bool {
    match labels {
        [app, tier] => is_label(app, "app", "web") && is_label(tier, "tier", "front"),
        _ => false,
    }
}

fn is_label(pair: &Pair, key: &str, value: &str) -> bool {
    pair.key.as_str() == key && pair.value.as_str() == value
}

fn is_owner(owner: &Option<OwnerRef>, kind: &str, name: &str) -> bool {
    match owner {
        Some(owner) => owner.kind.as_str() == kind && owner.name.as_str() == name,
        None => false,
    }
}

fn are_ports_of_web(ports: &[NamedPort]) -> bool {
    match ports {
        [http, dns, last] => {
            is_port(http, "http", Proto::Tcp, 8080)
                && is_port(dns, "dns", Proto::Udp, 53)
                && is_port(last, "last", Proto::Tcp, 65535)
        }
        _ => false,
    }
}

fn is_port(port: &NamedPort, name: &str, proto: Proto, number: u16) -> bool {
    port.name.as_str() == name && port.proto == proto && port.number.get() == number
}

fn are_addresses_of_web(addresses: &[Address]) -> bool {
    match addresses {
        [four, six] => {
            read_address("10.0.0.7") == Ok(*four) && read_address("fd00::7") == Ok(*six)
        }
        _ => false,
    }
}

static FAILED_POD: &str = r#"{"apiVersion": "v1", "kind": "Pod", "metadata": {"name": "proxy"},
    "spec": {"hostNetwork": true}, "status": {"phase": "Failed"}}"#;

// The name is read before the namespace, and that before the labels.
static BAD_POD: &str =
    r#"{"apiVersion": "v1", "kind": "Pod", "metadata": {"labels": 1, "namespace": 1, "name": "a/b"}}"#;

static NAMESPACE: &str = r#"{"apiVersion": "v1", "kind": "Namespace",
    "metadata": {"labels": {"kubernetes.io/metadata.name": "shop"}, "name": "shop"},
    "spec": {"finalizers": ["kubernetes"]}, "status": {"phase": "Active"}}"#;

fn is_shop(namespace: &NamespaceItem) -> bool {
    namespace.name.as_str() == "shop" && is_name_of_shop(namespace.labels.pairs())
}

fn is_name_of_shop(labels: &[Pair]) -> bool {
    match labels {
        [only] => is_label(only, "kubernetes.io/metadata.name", "shop"),
        _ => false,
    }
}

static DEPLOYMENT: &str = r#"{"apiVersion": "apps/v1", "kind": "Deployment",
    "metadata": {"generation": 2, "labels": {"app": "own"}, "name": "web", "namespace": "shop",
        "ownerReferences": [{"controller": true, "kind": "CronJob", "name": "each"}]},
    "spec": {"replicas": 0, "selector": {"matchLabels": {"app": "web"}}, "strategy": {},
        "template": {"metadata": {"creationTimestamp": null, "labels": {"tier": "front", "app": "web"}},
            "spec": {"containers": [{"ports": [{"containerPort": 80, "name": "http"}]}],
                "hostNetwork": true}}},
    "status": {"replicas": 1}}"#;

fn is_web(controller: &ControllerItem) -> bool {
    controller.kind == ControllerKind::Deployment
        && controller.namespace.as_str() == "shop"
        && controller.name.as_str() == "web"
        && controller.none_wanted
        && is_owner(&controller.owner, "CronJob", "each")
        && is_template_of_web(&controller.template)
}

fn is_template_of_web(template: &Option<Template>) -> bool {
    match template {
        Some(template) => {
            template.host_network
                && are_labels_of_web(template.labels.pairs())
                && is_http_port(template.ports.items())
        }
        None => false,
    }
}

fn is_http_port(ports: &[NamedPort]) -> bool {
    match ports {
        [only] => is_port(only, "http", Proto::Tcp, 80),
        _ => false,
    }
}

static SERVICE: &str =
    r#"{"apiVersion": "v1", "kind": "Service", "metadata": {"name": "web", "namespace": "shop"},
    "spec": {"clusterIP": "10.96.0.1", "clusterIPs": ["10.96.0.1"],
        "ports": [
            {"name": "http", "nodePort": 30080, "port": 80, "protocol": "TCP", "targetPort": "web"},
            {"name": "", "port": 53, "protocol": "UDP", "targetPort": 0}],
        "selector": {"tier": "front", "app": "web"}, "sessionAffinity": "None", "type": "ClusterIP"},
    "status": {"loadBalancer": {}}}"#;

fn is_web_service(service: &ServiceItem) -> bool {
    service.namespace.as_str() == "shop"
        && service.name.as_str() == "web"
        && !service.headless
        && !service.external
        && is_selector_of_web(&service.selector)
        && are_service_ports(service.ports.items())
}

fn is_selector_of_web(selector: &Option<Selector>) -> bool {
    match selector {
        Some(selector) => match selector.requirements.items() {
            [app, tier] => {
                is_asked(app, "app", Op::OneOf, "web") && is_asked(tier, "tier", Op::OneOf, "front")
            }
            _ => false,
        },
        None => false,
    }
}

fn are_service_ports(ports: &[ServicePort]) -> bool {
    match ports {
        [http, dns] => {
            http.proto == Proto::Tcp
                && http.port.get() == 80
                && is_named(&http.target, "web")
                && dns.proto == Proto::Udp
                && dns.port.get() == 53
                && is_number(&dns.target, 53)
                && are_names(&http.name, &dns.name)
        }
        _ => false,
    }
}

fn are_names(http: &Option<Text>, dns: &Option<Text>) -> bool {
    match (http, dns) {
        (Some(http), None) => http.as_str() == "http",
        _ => false,
    }
}

fn is_number(port: &PortName, wanted: u16) -> bool {
    match port {
        PortName::Number(number) => number.get() == wanted,
        PortName::Named(_) => false,
    }
}

fn is_named(port: &PortName, wanted: &str) -> bool {
    match port {
        PortName::Number(_) => false,
        PortName::Named(name) => name.as_str() == wanted,
    }
}

static INGRESS: &str =
    r#"{"apiVersion": "networking.k8s.io/v1", "kind": "Ingress", "metadata": {"name": "in", "namespace": "shop"},
    "spec": {"ingressClassName": "nginx", "rules": [
        {"host": "a.example", "http": {"paths": [
            {"backend": {"resource": {"apiGroup": "a", "kind": "B", "name": "c"}}}]}},
        {"host": "b.example"},
        {"http": {"paths": [{"backend": {"service": {"name": "b/c", "port": {"name": "h t", "number": 0}}}}]}}],
    "defaultBackend": {"service": {"name": "rest", "port": {"name": "", "number": 8080}}}}}"#;

fn is_ingress(ingress: &IngressItem) -> bool {
    ingress.namespace.as_str() == "shop"
        && ingress.name.as_str() == "in"
        && are_backends(ingress.backends.items())
}

// The names in backends may be any texts.
fn are_backends(backends: &[Backend]) -> bool {
    match backends {
        [
            Backend::Service {
                name: rest,
                port: number,
            },
            Backend::Resource,
            Backend::Service { name, port },
        ] => {
            rest.as_str() == "rest"
                && is_number(number, 8080)
                && name.as_str() == "b/c"
                && is_named(port, "h t")
        }
        _ => false,
    }
}
