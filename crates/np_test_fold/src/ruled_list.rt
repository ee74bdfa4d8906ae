//! The list that is asked.
ghost use Rattle.np_model.specs.Prelude.{IsLawful};

use np_model::Estate;
use np_reading::read_estate;
use std::alloc::Global;
use std::process::Abort;

// `b` takes TCP 80 from `a` and TCP 81 from a block by its NetworkPolicy, UDP 53 from every pod by an admin rule, and nothing by the
// baseline, since it is isolated.
static LIST: &str = concat!(
    r#"{"apiVersion":"v1","items":["#,
    r#"{"apiVersion":"v1","kind":"Pod","metadata":{"name":"a","labels":{"app":"a"}},"spec":{}},"#,
    r#"{"apiVersion":"v1","kind":"Pod","metadata":{"name":"b","labels":{"app":"b"}},"spec":{}},"#,
    r#"{"apiVersion":"networking.k8s.io/v1","kind":"NetworkPolicy","metadata":{"name":"p"},"spec":{"#,
    r#""podSelector":{"matchLabels":{"app":"b"}},"ingress":["#,
    r#"{"from":[{"podSelector":{"matchLabels":{"app":"a"}}}],"ports":[{"port":80}]},"#,
    r#"{"from":[{"ipBlock":{"cidr":"10.0.0.0/8"}}],"ports":[{"port":81}]}]}},"#,
    r#"{"apiVersion":"policy.networking.k8s.io/v1alpha1","kind":"AdminNetworkPolicy","metadata":{"name":"q"},"spec":{"#,
    r#""priority":1,"subject":{"namespaces":{}},"ingress":[{"action":"Allow","from":[{"namespaces":{}}],"#,
    r#""ports":[{"portNumber":{"protocol":"UDP","port":53}}]}]}},"#,
    r#"{"apiVersion":"policy.networking.k8s.io/v1alpha1","kind":"BaselineAdminNetworkPolicy","metadata":{"name":"default"},"#,
    r#""spec":{"subject":{"namespaces":{}},"ingress":[{"action":"Allow","from":[{"namespaces":{}}]}]}}"#,
    r#"],"kind":"List"}"#,
);

/// The estate of the list.
pub fn estate_of_list(rt: &impl Abort, alloc: Global) -> Estate
    ensures { IsLawful result }
{
    let inputs = [Vec::from_slice(alloc, LIST.as_bytes()).expect(rt, "an input")];
    read_estate(alloc, &inputs).expect(rt, "an estate")
}
