//! The kinds of objects that are read.
ghost use Rattle.std.specs.Prelude.{◌≡◌, codes};
ghost use Rattle.std.specs.Map.{lookup};
ghost use Rattle.std.specs.Str.{bytes_eq};
ghost use Rattle.np_objects.specs.Objects as objects;

use crate::controller::ControllerKind;

/// A kind of objects that is read.
#[derive(Clone, Copy)]
pub(crate) enum ObjectKind {
    Pod,
    Namespace,
    Controller(ControllerKind),
    Service,
    Ingress,
}

/// The kind of an object by its API version and the name of its kind. `None` where it is not read.
pub(crate) fn object_kind(version: &str, name: &str) -> Option<ObjectKind>
    ensures { result ≡ objects.object_kind version.now name.now }
{
    match version {
        "v1" => core_kind(name),
        "apps/v1" => apps_kind(name),
        "batch/v1" => batch_kind(name),
        "networking.k8s.io/v1" => networking_kind(name),
        _ => None,
    }
}

fn core_kind(name: &str) -> Option<ObjectKind>
    ensures { result ≡ lookup (bytes_eq name.now) (objects.kinds_of (codes "v1")) }
{
    match name {
        "Pod" => Some(ObjectKind::Pod),
        "Namespace" => Some(ObjectKind::Namespace),
        "Service" => Some(ObjectKind::Service),
        "ReplicationController" => Some(ObjectKind::Controller(
            ControllerKind::ReplicationController,
        )),
        _ => None,
    }
}

fn apps_kind(name: &str) -> Option<ObjectKind>
    ensures { result ≡ lookup (bytes_eq name.now) (objects.kinds_of (codes "apps/v1")) }
{
    match name {
        "Deployment" => Some(ObjectKind::Controller(ControllerKind::Deployment)),
        "ReplicaSet" => Some(ObjectKind::Controller(ControllerKind::ReplicaSet)),
        "StatefulSet" => Some(ObjectKind::Controller(ControllerKind::StatefulSet)),
        "DaemonSet" => Some(ObjectKind::Controller(ControllerKind::DaemonSet)),
        _ => None,
    }
}

fn batch_kind(name: &str) -> Option<ObjectKind>
    ensures { result ≡ lookup (bytes_eq name.now) (objects.kinds_of (codes "batch/v1")) }
{
    match name {
        "Job" => Some(ObjectKind::Controller(ControllerKind::Job)),
        "CronJob" => Some(ObjectKind::Controller(ControllerKind::CronJob)),
        _ => None,
    }
}

fn networking_kind(name: &str) -> Option<ObjectKind>
    ensures { result ≡ lookup (bytes_eq name.now) (objects.kinds_of (codes "networking.k8s.io/v1")) }
{
    match name {
        "Ingress" => Some(ObjectKind::Ingress),
        _ => None,
    }
}
