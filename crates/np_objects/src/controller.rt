//! Controllers of pods.
ghost use Rattle.std.specs.Prelude.{◌≡◌};
ghost use Rattle.std.specs.List.{list_any};
ghost use Rattle.std.specs.Str.{bytes_eq};
ghost use Rattle.np_objects.specs.ControllerKinds.{kind_name, is_controller_kind};

use crate::owner_ref::OwnerRef;
use np_base::{Seq, Text};
use np_labels::Labels;
use np_model::NamedPort;

/// The kinds of controllers (Kubernetes API reference, Workload Resources).
#[derive(Clone, Copy, PartialEq, Eq)]
pub enum ControllerKind {
    Deployment,
    ReplicaSet,
    StatefulSet,
    DaemonSet,
    ReplicationController,
    Job,
    CronJob,
}

impl ControllerKind {
    /// The name of the kind, as `kind` of an object or an owner reference says it.
    pub fn name(self) -> &'static str
        ensures { result.now ≡ kind_name self }
    {
        match self {
            ControllerKind::Deployment => "Deployment",
            ControllerKind::ReplicaSet => "ReplicaSet",
            ControllerKind::StatefulSet => "StatefulSet",
            ControllerKind::DaemonSet => "DaemonSet",
            ControllerKind::ReplicationController => "ReplicationController",
            ControllerKind::Job => "Job",
            ControllerKind::CronJob => "CronJob",
        }
    }
}

static KINDS: [ControllerKind; 7] = [
    ControllerKind::Deployment,
    ControllerKind::ReplicaSet,
    ControllerKind::StatefulSet,
    ControllerKind::DaemonSet,
    ControllerKind::ReplicationController,
    ControllerKind::Job,
    ControllerKind::CronJob,
];

/// Whether a kind, as an owner reference says it, is one of the controllers.
pub fn is_controller_kind(kind: &str) -> bool
    ensures { result ≡ is_controller_kind kind.now }
{
    is_one_of(&KINDS, kind)
}

// Whether a kind is one of these controllers.
fn is_one_of(kinds: &[ControllerKind], kind: &str) -> bool
    ensures { result ≡ list_any (λ which. bytes_eq kind.now (kind_name which)) kinds.now }
{
    kinds.iter().any(|which| kind == which.name())
}

/// The pods that a controller makes (Kubernetes API reference, PodTemplateSpec).
#[derive(Drop)]
pub struct Template {
    pub labels: Labels,
    /// The container ports that have a name, in order.
    pub ports: Seq<NamedPort>,
    pub host_network: bool,
}

/// A controller as it is listed.
#[derive(Drop)]
pub struct ControllerItem {
    pub kind: ControllerKind,
    pub namespace: Text,
    pub name: Text,
    /// That of the first of its owner references that controls it and is of a kind of controllers.
    pub owner: Option<OwnerRef>,
    /// Whether `spec.replicas` is 0. It is false of a DaemonSet, a Job and a CronJob, even where a Job is complete or
    /// suspended.
    pub none_wanted: bool,
    pub template: Option<Template>,
}
