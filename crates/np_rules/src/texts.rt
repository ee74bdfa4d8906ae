//! What directions and verdicts are called in reports.
ghost use Rattle.std.specs.Prelude.{◌≡◌, IfOk, string_bytes};
ghost use Rattle.np_rules.specs.Texts as spec;
ghost use Rattle.np_model.specs.Prelude.{direction_text};

use np_base::NoMemory;
use np_conns::PortSpot;
use np_model::Direction;
use std::alloc::Global;

/// `ingress` or `egress`, as the rules of a policy are listed.
pub fn direction_text(direction: Direction) -> &'static str
    ensures { result.now ≡ direction_text direction }
{
    match direction {
        Direction::Ingress => "ingress",
        Direction::Egress => "egress",
    }
}

/// `Allow` or `Deny`.
pub fn verdict_text(allowed: bool) -> &'static str
    ensures { result.now ≡ spec.verdict_text allowed }
{
    if allowed { "Allow" } else { "Deny" }
}

/// The verdict on a protocol and a port: `PROTOCOL port : Allow`, or `Deny`.
pub fn said_text(alloc: Global, spot: PortSpot, allowed: bool) -> Result<String, NoMemory>
    ensures { IfOk result (λ text. string_bytes text ≡ spec.said_text spot allowed) }
{
    let proto = spot.proto;
    let port = spot.port.get();
    let verdict = verdict_text(allowed);
    Ok(format!(in alloc; "{proto} {port} : {verdict}")?)
}
