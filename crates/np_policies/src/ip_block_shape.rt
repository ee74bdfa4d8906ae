//! Blocks of addresses.
ghost use Rattle.np_json.specs.Prelude.{Gives};
ghost use Rattle.np_policies.specs.Blocks as shapes;

use np_addr::{Cidr, first_bad_except, read_cidr};
use np_base::Seq;
use np_json::{
    FaultKind, Shape, ShapeFault, at, at_item, listed, must_be_object, of_type, or_refuse, refuse,
    required,
};
use serde_json::Value;
use std::alloc::Global;

/// A text that writes a block of addresses. A text that does not is `BadCidr`, another type `BadField`.
#[derive(Drop)]
pub(crate) struct CidrText;

impl Shape for CidrText {
    type Output = Cidr;

    ghost reads = { λ _. shapes.cidr };

    #[tactic(auto, unfolding(crate::specs::Blocks::cidr))]
    fn read(&self, alloc: Global, value: &Value) -> Result<Cidr, ShapeFault> {
        let text = of_type(alloc, value.as_str())?;
        or_refuse(alloc, read_cidr(text).ok(), FaultKind::BadCidr)
    }
}

/// The addresses of a block that are in none of its exceptions.
#[derive(Drop)]
pub struct IpBlock {
    pub cidr: Cidr,
    pub excepts: Seq<Cidr>,
}

/// The shape of `ipBlock` (Kubernetes API reference, IPBlock): `cidr`, which is required, and `except`, a list. The
/// first except that is no strict part of `cidr` is `BadExcept`.
#[derive(Drop)]
pub(crate) struct IpBlockShape;

impl Shape for IpBlockShape {
    type Output = IpBlock;

    ghost reads = { λ _. shapes.ip_block };

    #[tactic(auto, unfolding(crate::specs::Blocks::ip_block))]
    fn read(&self, alloc: Global, value: &Value) -> Result<IpBlock, ShapeFault> {
        must_be_object(alloc, value)?;
        let cidr = required(alloc, value, "cidr", &CidrText)?;
        let excepts = listed(alloc, value, "except", &CidrText)?;
        refuse_except(alloc, first_bad_except(&cidr, excepts.items()))?;
        Ok(IpBlock { cidr, excepts })
    }
}

// `BadExcept` at the except of that place, if there is one.
fn refuse_except(alloc: Global, place: Option<usize>) -> Result<(), ShapeFault>
    ensures { Gives result (shapes.refuse_except place) }
{
    match place {
        None => Ok(()),
        Some(place) => at(
            "except",
            at_item(place as u64, refuse(alloc, FaultKind::BadExcept)),
        ),
    }
}
