//! The first protocol and port at which a statement is broken.
ghost use Rattle.std.specs.Prelude.{◌≡◌, IfOk};
ghost use Rattle.np_check.specs.Counterexamples.{breaks};
ghost use Rattle.np_check.specs.Firsts as spec;
ghost use Rattle.np_check.specs.steps.Pairs.{is_deny};
ghost use Rattle.np_conns.specs.Prelude.{has_spot};
ghost use Rattle.np_conns.specs.declared.port_spot.PortSpot.{PortSpot};

use crate::question::Wanted;
use np_base::{Cells, NoMemory};
use np_conns::{ConnSet, PortSpot, Proto};

/// What a statement claims of the packets between its ends.
#[derive(Clone, Copy)]
pub(crate) struct Claim<'a> {
    pub wanted: Wanted,
    pub conns: &'a ConnSet,
}

impl<'a> Claim<'a> {
    /// Whether no packet may be allowed.
    pub(crate) fn denies(&self) -> bool
        ensures { result ≡ is_deny self.now.wanted }
    {
        match self.wanted {
            Wanted::Allow => false,
            Wanted::Deny => true,
        }
    }

    /// The first protocol and port of the statement at which a packet breaks it, by the set of those that pass.
    pub(crate) fn first_broken(&self, passes: &ConnSet) -> Result<Option<PortSpot>, NoMemory>
        ensures { IfOk result (λ made.
            made ≡ spec.first_spot (breaks self.now.wanted self.now.conns.now (has_spot passes.now))) }
    {
        let broken = self.broken(passes)?;
        Ok(first_spot(&broken))
    }

    // The protocols and ports of the statement at which a packet breaks it. Only those of the statement that pass are taken off it:
    // of the thousands of ranges that may pass, those behind the statement's last port are not gone through.
    fn broken(&self, passes: &ConnSet) -> Result<ConnSet, NoMemory>
        ensures { IfOk result (λ made. (spot : PortSpot) →
            has_spot made spot ≡ breaks self.now.wanted self.now.conns.now (has_spot passes.now) spot) }
    {
        match self.wanted {
            Wanted::Allow => {
                let passing = self.conns.meet(passes)?;
                self.conns.minus(&passing)
            }
            Wanted::Deny => self.conns.meet(passes),
        }
    }
}

// The first protocol and port of a set: TCP, UDP, SCTP, and then by port.
fn first_spot(set: &ConnSet) -> Option<PortSpot>
    ensures { result ≡ spec.first_spot (has_spot set.now) }
{
    let tcp = first_of_proto(set, Proto::Tcp);
    let udp = first_of_proto(set, Proto::Udp);
    let sctp = first_of_proto(set, Proto::Sctp);
    tcp.or(udp).or(sctp)
}

// The first port of a protocol.
fn first_of_proto(set: &ConnSet, proto: Proto) -> Option<PortSpot>
    ensures { result ≡ spec.first_of_proto (has_spot set.now) proto }
{
    let first = set.spans(proto).first()?;
    Some(PortSpot {
        proto,
        port: first.lo,
    })
}
