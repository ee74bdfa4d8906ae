//! The parts of flat policies: names, selectors, peers and ports.
ghost use Rattle.std.specs.Prelude.{◌≡◌, ◌++◌, IfOk, OnOk, Some, map};
ghost use Rattle.np_conns.specs.Prelude.{is_whole};
ghost use Rattle.np_model.specs.declared.network_policy.NetPeer.TheVariants.{Pods};
ghost use Rattle.np_flatten.specs.Prelude.{flat_name, ports_of, rule_to_everyone, span_of};
ghost use Rattle.np_flatten.specs.Selecting as select;
ghost use Rattle.np_table.specs.Prelude.{is_nothing};

use np_base::{NoMemory, PortNum, Range, Seq, Text};
use np_conns::{ConnSet, Proto};
use np_labels::{Labels, Op, Requirement, Selector};
use np_model::{NetPeer, NetPort, NetRule, Pod};
use std::alloc::Global;

/// The name of the policy of a group: `flat-` and its number.
pub(crate) fn flat_name(alloc: Global, group: u32) -> Result<Text, NoMemory>
    ensures { IfOk result (λ name. name ≡ flat_name group) }
{
    Ok(Text::from_string(format!(in alloc; "flat-{group}")?))
}

// ---- selectors

/// The selector of what has the same values of these keys as some labels: each key has its value, or is absent.
pub(crate) fn selector_of(
    alloc: Global,
    keys: &[Text],
    labels: &Labels,
) -> Result<Selector, NoMemory>
    ensures { IfOk result (λ made. made ≡ select.selector_of_keys keys.now labels.now) }
{
    let mut requirements = Seq::new(alloc);
    for key in keys {
        requirements.push(requirement_of(alloc, key, labels)?)?;
    }
    Ok(Selector { requirements })
}

// What is asked of one key.
fn requirement_of(alloc: Global, key: &Text, labels: &Labels) -> Result<Requirement, NoMemory>
    ensures { IfOk result (λ made. made ≡ select.requirement_of_key labels.now key.now) }
{
    match labels.get(key.as_str()) {
        Some(value) => Requirement::of_label(alloc, key.copy()?, Text::of(alloc, value)?),
        None => Requirement::of(alloc, key.copy()?, Op::Absent, Seq::new(alloc)),
    }
}

// The selector of the namespace of a name, by the label that each namespace has (Kubernetes documentation, "Well-Known
// Labels, Annotations and Taints").
fn namespace_named(alloc: Global, name: &Text) -> Result<Selector, NoMemory>
    ensures { IfOk result (λ made. made ≡ select.namespace_named name.now) }
{
    let key = Text::of(alloc, "kubernetes.io/metadata.name")?;
    let mut requirements = Seq::new(alloc);
    requirements.push(Requirement::of_label(alloc, key, name.copy()?)?)?;
    Ok(Selector { requirements })
}

// ---- peers

/// The pods of a pod's namespace that have the same values of these keys.
pub(crate) fn peer_like(alloc: Global, keys: &[Text], pod: &Pod) -> Result<NetPeer, NoMemory>
    ensures { IfOk result (λ made.
        made ≡ Pods (Some (select.namespace_named pod.now.namespace)) (Some (select.selector_of_keys keys.now pod.now.labels))) }
{
    let namespaces = namespace_named(alloc, &pod.namespace)?;
    let pods = selector_of(alloc, keys, &pod.labels)?;
    Ok(NetPeer::Pods {
        namespaces: Some(namespaces),
        pods: Some(pods),
    })
}

/// The rule of every pod of every namespace at every port.
pub(crate) fn rule_to_everyone(alloc: Global) -> Result<NetRule, NoMemory>
    ensures { IfOk result (λ made. made ≡ rule_to_everyone) }
{
    let everywhere = Selector {
        requirements: Seq::new(alloc),
    };
    let mut peers = Seq::new(alloc);
    peers.push(NetPeer::Pods {
        namespaces: Some(everywhere),
        pods: None,
    })?;
    Ok(NetRule {
        peers,
        ports: Seq::new(alloc),
    })
}

// ---- ports

/// The ports of a rule that lets a set pass: its runs, of TCP, of UDP and then of SCTP. There is none where the set has
/// everything, since a rule without ports restricts none (Kubernetes API reference, NetworkPolicyIngressRule).
pub(crate) fn ports_of(alloc: Global, conns: &ConnSet) -> Result<Seq<NetPort>, NoMemory>
    ensures { IfOk result (λ made. made ≡ ports_of conns.now) }
{
    let mut ports = Seq::new(alloc);
    let tcp = conns.spans(Proto::Tcp);
    let udp = conns.spans(Proto::Udp);
    let sctp = conns.spans(Proto::Sctp);
    if is_whole(tcp) && is_whole(udp) && is_whole(sctp) {
        return Ok(ports);
    }
    add_spans(&mut ports, Proto::Tcp, tcp)?;
    add_spans(&mut ports, Proto::Udp, udp)?;
    add_spans(&mut ports, Proto::Sctp, sctp)?;
    Ok(ports)
}

// Whether the runs of a protocol are the one of all ports.
fn is_whole(runs: &[Range<PortNum>]) -> bool
    ensures { result ≡ is_whole runs.now }
{
    match runs {
        [run, ..] => run.lo.get() == 1 && run.hi.get() == 65535,
        [] => false,
    }
}

// Adds the runs of a protocol.
fn add_spans(
    ports: &mut Seq<NetPort>,
    proto: Proto,
    runs: &[Range<PortNum>],
) -> Result<(), NoMemory>
    ensures { OnOk result (ports.new ≡ ports.old ++ map (span_of proto) runs.now) }
{
    for run in runs {
        let lo = run.lo;
        let hi = run.hi;
        ports.push(NetPort::Span { proto, lo, hi })?;
    }
    Ok(())
}

/// Whether a set has no port of any protocol.
pub(crate) fn is_nothing(conns: &ConnSet) -> bool
    ensures { result ≡ is_nothing conns.now }
{
    conns.spans(Proto::Tcp).is_empty()
        && conns.spans(Proto::Udp).is_empty()
        && conns.spans(Proto::Sctp).is_empty()
}
