//! Ends as rules look at them.
ghost use Rattle.std.specs.Prelude.{◌≡◌};
ghost use Rattle.np_rules.specs.model.Ends.{pod_end, stranger_end};
ghost use Rattle.np_rules.specs.Views as spec;

use crate::stranger::Stranger;
use np_addr::{Address, Addresses, Family};
use np_conns::PortSpot;
use np_labels::Labels;
use np_model::{NamedPort, Pod};

/// A pod as rules look at it: one of an estate, or one that nobody has written yet.
#[derive(Drop)]
pub(crate) struct PodView<'a> {
    pub namespace: &'a str,
    pub namespace_labels: &'a Labels,
    pub labels: &'a Labels,
    pub ports: &'a [NamedPort],
    // None of a pod that nobody has written yet.
    pub addresses: Option<&'a Addresses>,
}

/// A pod of an estate.
pub(crate) fn view_of_pod(pod: &Pod) -> PodView<'_>
    ensures { spec.pod_view result ≡ pod_end pod.now }
{
    PodView {
        namespace: pod.namespace.as_str(),
        namespace_labels: pod.namespace_labels.labels(),
        labels: &pod.labels,
        ports: pod.ports.items(),
        addresses: Some(&pod.addresses),
    }
}

/// A pod that nobody has written yet.
pub(crate) fn view_of_stranger(stranger: &Stranger) -> PodView<'_>
    ensures { spec.pod_view result ≡ stranger_end stranger.now }
{
    PodView {
        namespace: stranger
            .namespace
            .get("kubernetes.io/metadata.name")
            .unwrap_or(""),
        namespace_labels: &stranger.namespace,
        labels: &stranger.labels,
        ports: &[],
        addresses: None,
    }
}

/// An end as rules look at it.
#[derive(Drop)]
pub(crate) enum EndView<'a> {
    Pod(PodView<'a>),
    At(Address),
}

/// What a pod's side of a packet looks at: the end at the far side, the end that the packet goes to, its family, and its
/// protocol and port.
#[derive(Drop)]
pub(crate) struct ContactView<'a> {
    pub far: EndView<'a>,
    pub destination: EndView<'a>,
    pub family: Family,
    pub spot: PortSpot,
}
