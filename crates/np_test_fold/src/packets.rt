//! Verdicts of single packets.
ghost use Rattle.std.specs.Prelude.{◌≡◌, length};

use np_addr::Family;
use np_base::PortNum;
use np_conns::{PortSpot, Proto};
use np_model::Estate;
use np_rules::{End, Packet, allows, said_text};
use std::alloc::Global;
use std::process::Abort;

/// Stops the test unless this is said of a packet over TCP from the first pod to the second.
pub fn expect_packet(rt: &impl Abort, alloc: Global, estate: &Estate, port: PortNum, wanted: &str)
    requires { length estate.now.pods ≡ 2 }
{
    let proto = Proto::Tcp;
    let packet = Packet {
        source: End::Pod(0),
        destination: End::Pod(1),
        family: Family::Four,
        proto,
        port,
    };
    let allowed = allows(estate, &packet);
    let said = said_text(alloc, PortSpot { proto, port }, allowed).expect(rt, "a text");
    assert!(rt; said.as_str() == wanted, "{wanted}");
}
