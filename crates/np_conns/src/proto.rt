//! Transport protocols.

use std::fmt;

/// A transport protocol of a port: `protocol` of the Kubernetes API. It prints as `TCP`, `UDP` or `SCTP`.
#[derive(Clone, Copy, Debug, PartialEq, Eq, PartialOrd, Ord)]
pub enum Proto {
    Tcp,
    Udp,
    Sctp,
}

impl Proto {
    ghost use Rattle.std.specs.Prelude.{◌≡◌};
    ghost use Rattle.np_conns.specs.ConnsText.{proto_named};

    /// The protocol of this name, in capital letters. `None` where the name is none of the three.
    pub fn named(name: &str) -> Option<Proto>
        ensures { result ≡ proto_named name.now }
    {
        match name {
            "TCP" => Some(Proto::Tcp),
            "UDP" => Some(Proto::Udp),
            "SCTP" => Some(Proto::Sctp),
            _ => None,
        }
    }
}

impl fmt::Display for Proto {
    ghost use Rattle.std.specs.Prelude.{Some};
    ghost use Rattle.np_conns.specs.ConnsText.{proto_name};

    ghost output = { λ proto. Some (proto_name proto) };

    fn fmt<W: fmt::Write>(&self, f: &mut fmt::Formatter<W>) -> fmt::Result {
        f.write_str(match self {
            Proto::Tcp => "TCP",
            Proto::Udp => "UDP",
            Proto::Sctp => "SCTP",
        })
    }
}
