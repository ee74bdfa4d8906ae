//! Notes on the backends of ingresses.

use std::fmt;

/// Why a backend of an ingress leads nowhere, or not where it seems to. The first of these that holds is told.
#[derive(Clone, Copy, PartialEq, Eq)]
pub enum RouteFlaw {
    /// No service of its name is listed in the ingress's namespace.
    NoService,
    /// The service serves no pods that could be told: its selector is missing or empty, or its type is `ExternalName`.
    NoSelector,
    /// The service has no TCP port of its number or name.
    NoPort,
    /// The service is headless (its `clusterIP` is `None`), so that its port leads to the port of the same number at the
    /// pod, whatever its target is.
    Headless,
    /// It is no service, and which pods are behind it is not known.
    Resource,
}

impl fmt::Display for RouteFlaw {
    ghost use Rattle.std.specs.Prelude.{Some};
    ghost use Rattle.np_routes.specs.RouteNotes.{flaw_text};

    ghost output = { λ flaw. Some (flaw_text flaw) };

    fn fmt<W: fmt::Write>(&self, f: &mut fmt::Formatter<W>) -> fmt::Result {
        f.write_str(match self {
            RouteFlaw::NoService => "NoService",
            RouteFlaw::NoSelector => "NoSelector",
            RouteFlaw::NoPort => "NoPort",
            RouteFlaw::Headless => "Headless",
            RouteFlaw::Resource => "Resource",
        })
    }
}

/// A backend of an ingress, and its flaw. It is written as the line that tells of it, as `item 4: backend 1: NoService`.
#[derive(Clone, Copy, PartialEq, Eq)]
pub struct RouteNote {
    /// The number of the ingress's item, from 1 over all inputs.
    pub item: u64,
    /// The number of the backend in its ingress, from 1: `defaultBackend` where there is one, and then those of the rules
    /// and their paths as written.
    pub backend: u64,
    pub flaw: RouteFlaw,
}

impl fmt::Display for RouteNote {
    ghost use Rattle.std.specs.Prelude.{Some};
    ghost use Rattle.np_routes.specs.RouteNotes.{route_note_text};

    ghost output = { λ note. Some (route_note_text note) };

    fn fmt<W: fmt::Write>(&self, f: &mut fmt::Formatter<W>) -> fmt::Result {
        let RouteNote {
            item,
            backend,
            flaw,
        } = self;
        write!(f, "item {item}: backend {backend}: {flaw}")
    }
}
