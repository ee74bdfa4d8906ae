//! The sample cluster, as kubectl would print it.

use np_sample::sample;

// One pod, written out by hand. The line breaks are not in the text.
static ONE_POD: &str = r#"{"apiVersion":"v1","items":[
{"apiVersion":"v1","kind":"Namespace","metadata":{"name":"s0"}},
{"apiVersion":"v1","kind":"Namespace","metadata":{"name":"s1"}},
{"apiVersion":"v1","kind":"Namespace","metadata":{"name":"s2"}},
{"apiVersion":"v1","kind":"Namespace","metadata":{"name":"s3"}},
{"apiVersion":"v1","kind":"Namespace","metadata":{"name":"s4"}},
{"apiVersion":"v1","kind":"Pod","metadata":{"labels":{"app":"a0"},"name":"p0","namespace":"s0"},"spec":{"containers":[{"ports":[{"containerPort":8000,"name":"http","protocol":"TCP"}]}]}},
{"apiVersion":"networking.k8s.io/v1","kind":"NetworkPolicy","metadata":{"name":"next","namespace":"s0"},"spec":{"ingress":[{"from":[{"namespaceSelector":{"matchLabels":{"kubernetes.io/metadata.name":"s1"}}}],"ports":[{"port":"http","protocol":"TCP"}]},{"from":[{"ipBlock":{"cidr":"10.0.0.0/16"}}],"ports":[{"port":443,"protocol":"TCP"}]}],"podSelector":{},"policyTypes":["Ingress"]}},
{"apiVersion":"networking.k8s.io/v1","kind":"NetworkPolicy","metadata":{"name":"next","namespace":"s1"},"spec":{"ingress":[{"from":[{"namespaceSelector":{"matchLabels":{"kubernetes.io/metadata.name":"s2"}}}],"ports":[{"port":"http","protocol":"TCP"}]},{"from":[{"ipBlock":{"cidr":"10.1.0.0/16"}}],"ports":[{"port":443,"protocol":"TCP"}]}],"podSelector":{},"policyTypes":["Ingress"]}},
{"apiVersion":"networking.k8s.io/v1","kind":"NetworkPolicy","metadata":{"name":"next","namespace":"s2"},"spec":{"ingress":[{"from":[{"namespaceSelector":{"matchLabels":{"kubernetes.io/metadata.name":"s3"}}}],"ports":[{"port":"http","protocol":"TCP"}]},{"from":[{"ipBlock":{"cidr":"10.2.0.0/16"}}],"ports":[{"port":443,"protocol":"TCP"}]}],"podSelector":{},"policyTypes":["Ingress"]}},
{"apiVersion":"networking.k8s.io/v1","kind":"NetworkPolicy","metadata":{"name":"next","namespace":"s3"},"spec":{"ingress":[{"from":[{"namespaceSelector":{"matchLabels":{"kubernetes.io/metadata.name":"s4"}}}],"ports":[{"port":"http","protocol":"TCP"}]},{"from":[{"ipBlock":{"cidr":"10.3.0.0/16"}}],"ports":[{"port":443,"protocol":"TCP"}]}],"podSelector":{},"policyTypes":["Ingress"]}},
{"apiVersion":"networking.k8s.io/v1","kind":"NetworkPolicy","metadata":{"name":"next","namespace":"s4"},"spec":{"ingress":[{"from":[{"namespaceSelector":{"matchLabels":{"kubernetes.io/metadata.name":"s0"}}}],"ports":[{"port":"http","protocol":"TCP"}]},{"from":[{"ipBlock":{"cidr":"10.4.0.0/16"}}],"ports":[{"port":443,"protocol":"TCP"}]}],"podSelector":{},"policyTypes":["Ingress"]}},
{"apiVersion":"policy.networking.k8s.io/v1alpha1","kind":"AdminNetworkPolicy","metadata":{"name":"stop"},"spec":{"ingress":[{"action":"Deny","from":[{"pods":{"namespaceSelector":{},"podSelector":{"matchLabels":{"app":"a6"}}}}]}],"priority":10,"subject":{"namespaces":{}}}}
],"kind":"List"}"#;

// Eight pods, of seven values of a label, five namespaces and three ports. The line breaks are not in the text.
static EIGHT_PODS: &str = r#"{"apiVersion":"v1","items":[
{"apiVersion":"v1","kind":"Namespace","metadata":{"name":"s0"}},
{"apiVersion":"v1","kind":"Namespace","metadata":{"name":"s1"}},
{"apiVersion":"v1","kind":"Namespace","metadata":{"name":"s2"}},
{"apiVersion":"v1","kind":"Namespace","metadata":{"name":"s3"}},
{"apiVersion":"v1","kind":"Namespace","metadata":{"name":"s4"}},
{"apiVersion":"v1","kind":"Pod","metadata":{"labels":{"app":"a0"},"name":"p0","namespace":"s0"},"spec":{"containers":[{"ports":[{"containerPort":8000,"name":"http","protocol":"TCP"}]}]}},
{"apiVersion":"v1","kind":"Pod","metadata":{"labels":{"app":"a1"},"name":"p1","namespace":"s1"},"spec":{"containers":[{"ports":[{"containerPort":8001,"name":"http","protocol":"TCP"}]}]}},
{"apiVersion":"v1","kind":"Pod","metadata":{"labels":{"app":"a2"},"name":"p2","namespace":"s2"},"spec":{"containers":[{"ports":[{"containerPort":8002,"name":"http","protocol":"TCP"}]}]}},
{"apiVersion":"v1","kind":"Pod","metadata":{"labels":{"app":"a3"},"name":"p3","namespace":"s3"},"spec":{"containers":[{"ports":[{"containerPort":8000,"name":"http","protocol":"TCP"}]}]}},
{"apiVersion":"v1","kind":"Pod","metadata":{"labels":{"app":"a4"},"name":"p4","namespace":"s4"},"spec":{"containers":[{"ports":[{"containerPort":8001,"name":"http","protocol":"TCP"}]}]}},
{"apiVersion":"v1","kind":"Pod","metadata":{"labels":{"app":"a5"},"name":"p5","namespace":"s0"},"spec":{"containers":[{"ports":[{"containerPort":8002,"name":"http","protocol":"TCP"}]}]}},
{"apiVersion":"v1","kind":"Pod","metadata":{"labels":{"app":"a6"},"name":"p6","namespace":"s1"},"spec":{"containers":[{"ports":[{"containerPort":8000,"name":"http","protocol":"TCP"}]}]}},
{"apiVersion":"v1","kind":"Pod","metadata":{"labels":{"app":"a0"},"name":"p7","namespace":"s2"},"spec":{"containers":[{"ports":[{"containerPort":8001,"name":"http","protocol":"TCP"}]}]}},
{"apiVersion":"networking.k8s.io/v1","kind":"NetworkPolicy","metadata":{"name":"next","namespace":"s0"},"spec":{"ingress":[{"from":[{"namespaceSelector":{"matchLabels":{"kubernetes.io/metadata.name":"s1"}}}],"ports":[{"port":"http","protocol":"TCP"}]},{"from":[{"ipBlock":{"cidr":"10.0.0.0/16"}}],"ports":[{"port":443,"protocol":"TCP"}]}],"podSelector":{},"policyTypes":["Ingress"]}},
{"apiVersion":"networking.k8s.io/v1","kind":"NetworkPolicy","metadata":{"name":"next","namespace":"s1"},"spec":{"ingress":[{"from":[{"namespaceSelector":{"matchLabels":{"kubernetes.io/metadata.name":"s2"}}}],"ports":[{"port":"http","protocol":"TCP"}]},{"from":[{"ipBlock":{"cidr":"10.1.0.0/16"}}],"ports":[{"port":443,"protocol":"TCP"}]}],"podSelector":{},"policyTypes":["Ingress"]}},
{"apiVersion":"networking.k8s.io/v1","kind":"NetworkPolicy","metadata":{"name":"next","namespace":"s2"},"spec":{"ingress":[{"from":[{"namespaceSelector":{"matchLabels":{"kubernetes.io/metadata.name":"s3"}}}],"ports":[{"port":"http","protocol":"TCP"}]},{"from":[{"ipBlock":{"cidr":"10.2.0.0/16"}}],"ports":[{"port":443,"protocol":"TCP"}]}],"podSelector":{},"policyTypes":["Ingress"]}},
{"apiVersion":"networking.k8s.io/v1","kind":"NetworkPolicy","metadata":{"name":"next","namespace":"s3"},"spec":{"ingress":[{"from":[{"namespaceSelector":{"matchLabels":{"kubernetes.io/metadata.name":"s4"}}}],"ports":[{"port":"http","protocol":"TCP"}]},{"from":[{"ipBlock":{"cidr":"10.3.0.0/16"}}],"ports":[{"port":443,"protocol":"TCP"}]}],"podSelector":{},"policyTypes":["Ingress"]}},
{"apiVersion":"networking.k8s.io/v1","kind":"NetworkPolicy","metadata":{"name":"next","namespace":"s4"},"spec":{"ingress":[{"from":[{"namespaceSelector":{"matchLabels":{"kubernetes.io/metadata.name":"s0"}}}],"ports":[{"port":"http","protocol":"TCP"}]},{"from":[{"ipBlock":{"cidr":"10.4.0.0/16"}}],"ports":[{"port":443,"protocol":"TCP"}]}],"podSelector":{},"policyTypes":["Ingress"]}},
{"apiVersion":"policy.networking.k8s.io/v1alpha1","kind":"AdminNetworkPolicy","metadata":{"name":"stop"},"spec":{"ingress":[{"action":"Deny","from":[{"pods":{"namespaceSelector":{},"podSelector":{"matchLabels":{"app":"a6"}}}}]}],"priority":10,"subject":{"namespaces":{}}}}
],"kind":"List"}"#;

#[test]
fn a_sample_of_one_pod(rt: HostRuntime) {
    let alloc = rt.alloc();
    let made = sample(alloc, 1).expect(&rt, "a sample");
    let wanted = ONE_POD.replace(alloc, "\n", "").expect(&rt, "a text");
    assert!(rt; made.as_slice() == wanted.as_bytes());
}

#[test]
fn example_sample(rt: HostRuntime) {
    let alloc = rt.alloc();
    let made = sample(alloc, 8).expect(&rt, "a sample");
    let wanted = EIGHT_PODS.replace(alloc, "\n", "").expect(&rt, "a text");
    assert!(rt; made.as_slice() == wanted.as_bytes());
}
