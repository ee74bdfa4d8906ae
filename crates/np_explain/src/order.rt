//! Which set comes first: the one with the lesser least spot.
ghost use Rattle.std.specs.Prelude.{◌≡◌, ◌≤◌};
ghost use Rattle.np_explain.specs.Order as spec;

use np_base::{PortNum, Range};
use np_conns::{ConnSet, Proto};

/// The number of the least spot of a set, in the order TCP, UDP, SCTP, and then by port. It is 0 for a set without spots.
pub(crate) fn first_number(conns: &ConnSet) -> u32
    ensures { result ≡ spec.first_number conns.now }
{
    let sctp = first_or(conns.spans(Proto::Sctp), 131_072, 0);
    let udp = first_or(conns.spans(Proto::Udp), 65_536, sctp);
    first_or(conns.spans(Proto::Tcp), 0, udp)
}

// The number of the first port of some runs, where the ports are numbered from `start` on, or another where there is none.
fn first_or(runs: &[Range<PortNum>], start: u32, otherwise: u32) -> u32
    requires { start ≤ 131072 }
    ensures { result ≡ spec.first_or runs.now start otherwise }
{
    match runs {
        [first, ..] => start + u32::from(first.lo.get()),
        [] => otherwise,
    }
}
