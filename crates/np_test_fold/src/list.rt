//! The list that is asked.

use np_fold::Folded;
use np_reading::read_estate;
use std::alloc::Global;
use std::process::Abort;

// Two pods of the StatefulSet `db`, which take TCP 5432 from one another and other ports from the pod `c`. Nobody may send to
// TCP 22 of the two.
static LIST: &str = concat!(
    r#"{"apiVersion":"v1","items":[{"apiVersion":"v1","kind":"Pod","metadata":{"name":"db-0","labels":{"app":"db"},"#,
    r#""ownerReferences":[{"controller":true,"kind":"StatefulSet","name":"db"}]},"spec":{},"status":{"podIP":"10.0.0.0"}},"#,
    r#"{"apiVersion":"v1","kind":"Pod","metadata":{"name":"db-1","labels":{"app":"db","each":"1"},"#,
    r#""ownerReferences":[{"controller":true,"kind":"StatefulSet","name":"db"}]},"spec":{},"status":{"podIP":"10.0.0.1"}},"#,
    r#"{"apiVersion":"v1","kind":"Pod","metadata":{"name":"c","labels":{"app":"c"}},"spec":{},"status":{"podIP":"10.0.0.2"}},"#,
    r#"{"apiVersion":"networking.k8s.io/v1","kind":"NetworkPolicy","metadata":{"name":"p"},"spec":{"#,
    r#""podSelector":{"matchLabels":{"app":"db"}},"ingress":["#,
    r#"{"from":[{"podSelector":{"matchLabels":{"app":"db"}}}],"ports":[{"port":5432}]},"#,
    r#"{"from":[{"podSelector":{"matchLabels":{"app":"c"}}}],"#,
    r#""ports":[{"port":80,"endPort":90},{"port":53,"protocol":"UDP"}]}]}},"#,
    r#"{"apiVersion":"policy.networking.k8s.io/v1alpha1","kind":"AdminNetworkPolicy","metadata":{"name":"n"},"spec":{"#,
    r#""priority":1,"subject":{"namespaces":{}},"egress":[{"action":"Deny","to":[{"networks":["10.0.0.0/31"]}],"#,
    r#""ports":[{"portNumber":{"port":22,"protocol":"TCP"}}]}]}}],"kind":"List"}"#,
);

/// The estate of the list with its workloads.
pub fn folded_list(rt: &impl Abort, alloc: Global) -> Folded {
    let inputs = [Vec::from_slice(alloc, LIST.as_bytes()).expect(rt, "an input")];
    let estate = read_estate(alloc, &inputs).expect(rt, "an estate");
    Folded::of(alloc, estate).expect(rt, "workloads")
}
