//! The members that port entries of all policies have: protocols and names of ports.
ghost use Rattle.std.specs.Prelude.{◌≡◌, codes};
ghost use Rattle.serde_json.specs.View.{view};
ghost use Rattle.np_json.specs.Prelude.{Gives};
ghost use Rattle.np_policies.specs.Ports as shapes;

use np_base::Text;
use np_conns::Proto;
use np_json::{FaultKind, ProtocolName, Shape, ShapeFault, of_type, optional, refuse_if};
use np_model::is_word;
use serde_json::Value;
use std::alloc::Global;

/// The member `protocol`: `TCP`, `UDP` or `SCTP`, and TCP where it is missing. Another text is `BadProtocol`.
#[tactic(auto, unfolding(crate::specs::Ports::protocol))]
pub(crate) fn protocol(alloc: Global, object: &Value) -> Result<Proto, ShapeFault>
    ensures { Gives result (shapes.protocol (view object.now)) }
{
    let proto = optional(alloc, object, "protocol", &ProtocolName)?;
    Ok(proto.unwrap_or(Proto::Tcp))
}

/// The name of a container port: a word that is not empty. The empty text is `BadPort`, anything else `BadField`.
#[derive(Drop)]
pub(crate) struct PolicyPortName;

impl Shape for PolicyPortName {
    type Output = Text;

    ghost reads = { λ _. shapes.container_port_name };

    #[tactic(auto, unfolding(crate::specs::Ports::container_port_name))]
    fn read(&self, alloc: Global, value: &Value) -> Result<Text, ShapeFault> {
        let text = of_type(alloc, value.as_str())?;
        refuse_if(alloc, text.is_empty(), FaultKind::BadPort)?;
        refuse_if(alloc, !is_word(text), FaultKind::BadField)?;
        Ok(Text::of(alloc, text)?)
    }
}
