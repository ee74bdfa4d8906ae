//! Port entries (Kubernetes API reference, NetworkPolicyPort).
ghost use Rattle.std.specs.Prelude.{◌≡◌, IfOk};
ghost use Rattle.serde_json.specs.View.{view};
ghost use Rattle.np_conns.specs.Prelude.{proto_name};
ghost use Rattle.np_manifests.specs.Manifests as manifests;

use crate::manifest::Manifest;
use np_base::{NoMemory, PortNum};
use np_conns::Proto;
use np_model::NetPort;
use serde_json::{Value, json};
use std::alloc::Global;

impl Manifest for NetPort {
    ghost json = { manifests.port_data };

    fn value(&self, alloc: Global) -> Result<Value, NoMemory> {
        match self {
            NetPort::Span { proto, lo, hi } => span(alloc, *proto, *lo, *hi),
            NetPort::Named { proto, name } => {
                let protocol = proto_name(*proto);
                Ok(json!(in alloc; {"port": name.as_str(), "protocol": protocol})?)
            }
        }
    }
}

// The entry of a run of ports. That of one port has no `endPort`.
fn span(alloc: Global, proto: Proto, lo: PortNum, hi: PortNum) -> Result<Value, NoMemory>
    ensures { IfOk result (λ value. view value ≡ manifests.span proto lo hi) }
{
    let first = lo.get();
    let last = hi.get();
    let protocol = proto_name(proto);
    if first == last {
        return Ok(json!(in alloc; {"port": first, "protocol": protocol})?);
    }
    Ok(json!(in alloc; {"endPort": last, "port": first, "protocol": protocol})?)
}

// The name of a protocol.
fn proto_name(proto: Proto) -> &'static str
    ensures { result.now ≡ proto_name proto }
{
    match proto {
        Proto::Tcp => "TCP",
        Proto::Udp => "UDP",
        Proto::Sctp => "SCTP",
    }
}
