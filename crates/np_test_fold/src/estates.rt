//! Estates that are read of lists.

use np_model::{Estate, Pod};
use np_reading::read_estate;
use std::alloc::Global;
use std::process::Abort;

// The estate of a list.
fn estate_of(rt: &impl Abort, alloc: Global, list: &str) -> Estate {
    let inputs = [Vec::from_slice(alloc, list.as_bytes()).expect(rt, "an input")];
    read_estate(alloc, &inputs).expect(rt, "an estate")
}

// A ReplicaSet of a Deployment, its pod, and a Deployment without pods, as kubectl prints them.
static OWNED: &str = r#"{"apiVersion":"v1","kind":"List","items":[
    {"apiVersion":"apps/v1","kind":"ReplicaSet","metadata":{"name":"web-0","uid":"2","ownerReferences":[
        {"apiVersion":"apps/v1","blockOwnerDeletion":true,"controller":true,"kind":"Deployment","name":"web","uid":"1"}]},
        "spec":{"replicas":1,"template":{"metadata":{"labels":{"app":"web","pod-template-hash":"0"}},"spec":{}}}},
    {"apiVersion":"v1","kind":"Pod","metadata":{"name":"web-0-a","generateName":"web-0-","labels":{"app":"web"},
        "ownerReferences":[{"apiVersion":"v1","kind":"Namespace","name":"other","uid":"9"},
            {"apiVersion":"apps/v1","controller":true,"kind":"ReplicaSet","name":"web-0","uid":"2"}]},
        "spec":{"containers":[{"name":"c","ports":[{"containerPort":80}]}],"nodeName":"n"},
        "status":{"conditions":[{"status":"True","type":"Ready"}],"phase":"Running","podIP":"10.0.0.1"}},
    {"apiVersion":"apps/v1","kind":"Deployment","metadata":{"name":"db","uid":"3","generation":2},
        "spec":{"replicas":3,"selector":{"matchLabels":{"app":"db"}},
        "template":{"metadata":{"labels":{"app":"db"}},"spec":{"containers":[{"image":"db","name":"c"}]}}},
        "status":{"readyReplicas":3}}]}"#;

// Whether a pod is of that name, listed or made from a template, and of that Deployment.
fn is_pod(pod: &Pod, name: &str, listed: bool, deployment: &str) -> bool {
    pod.namespace.as_str() == "default"
        && pod.name.as_str() == name
        && pod.listed == listed
        && pod.owner.kind.as_str() == "Deployment"
        && pod.owner.name.as_str() == deployment
}

fn has_one_of_each(estate: &Estate) -> bool {
    match estate.pods() {
        [web, db] => is_pod(web, "web-0-a", true, "web") && is_pod(db, "db", false, "db"),
        _ => false,
    }
}

#[test]
fn example_read_estate(rt: HostRuntime) {
    let estate = estate_of(&rt, rt.alloc(), OWNED);
    assert!(rt; has_one_of_each(&estate));
}

// A pod of a namespace with an object of its own, whose labels say another name, and a pod of one without.
static NAMESPACES: &str = r#"{"apiVersion":"v1","kind":"List","items":[
    {"apiVersion":"v1","kind":"Pod","metadata":{"name":"a","namespace":"shop"},"spec":{}},
    {"apiVersion":"v1","kind":"Namespace","metadata":{"name":"shop","labels":{"team":"x","kubernetes.io/metadata.name":"y"}}},
    {"apiVersion":"v1","kind":"Pod","metadata":{"name":"b"},"spec":{}}]}"#;

// Whether a pod's namespace has that name and that team by its labels.
fn has_labels(pod: &Pod, name: &str, team: Option<&str>) -> bool {
    let labels = pod.namespace_labels.labels();
    labels.get("kubernetes.io/metadata.name") == Some(name) && labels.get("team") == team
}

fn has_their_labels(estate: &Estate) -> bool {
    match estate.pods() {
        [shop, default] => has_labels(shop, "shop", Some("x"))
            && has_labels(default, "default", None),
        _ => false,
    }
}

#[test]
fn labels_of_namespaces(rt: HostRuntime) {
    let estate = estate_of(&rt, rt.alloc(), NAMESPACES);
    assert!(rt; has_their_labels(&estate));
}

static POLICIES: &str = r#"{"apiVersion":"v1","kind":"List","items":[
    {"apiVersion":"networking.k8s.io/v1","kind":"NetworkPolicy","metadata":{"namespace":"x","name":"b"},"spec":{}},
    {"apiVersion":"networking.k8s.io/v1","kind":"NetworkPolicy","metadata":{"namespace":"x","name":"a"},"spec":{}},
    {"apiVersion":"networking.k8s.io/v1","kind":"NetworkPolicy","metadata":{"namespace":"default","name":"z"},"spec":{}},
    {"apiVersion":"policy.networking.k8s.io/v1alpha1","kind":"AdminNetworkPolicy","metadata":{"name":"late"},
        "spec":{"priority":20,"subject":{"namespaces":{}}}},
    {"apiVersion":"policy.networking.k8s.io/v1alpha1","kind":"AdminNetworkPolicy","metadata":{"name":"early"},
        "spec":{"priority":3,"subject":{"namespaces":{}}}}]}"#;

fn has_policies_in_order(estate: &Estate) -> bool {
    match (estate.net_policies(), estate.admin_policies()) {
        ([z, a, b], [early, late]) => {
            z.name.as_str() == "z"
                && a.name.as_str() == "a"
                && b.name.as_str() == "b"
                && early.name.as_str() == "early"
                && late.name.as_str() == "late"
        }
        _ => false,
    }
}

// NetworkPolicies stand by namespace and name, and admin policies by priority.
#[test]
fn policies_in_order(rt: HostRuntime) {
    let estate = estate_of(&rt, rt.alloc(), POLICIES);
    assert!(rt; has_policies_in_order(&estate));
}
