//! The blocks of addresses by which rules select pods.
ghost use Rattle.std.specs.Prelude.{◌≡◌, ◌++◌, IfOk, OnOk};
ghost use Rattle.np_fold.specs.Blocks as spec;

use np_addr::Cidr;
use np_base::{NoMemory, Seq};
use np_model::{AdminPeer, Estate, admin_peers};
use std::alloc::Global;

/// The blocks of all `networks` peers, in the order of the policies and of their rules (network-policy-api reference,
/// AdminNetworkPolicyEgressPeer). They are the only blocks by which pods are selected.
pub fn listed_cidrs(alloc: Global, estate: &Estate) -> Result<Seq<Cidr>, NoMemory>
    ensures { IfOk result (λ made. made ≡ spec.cidrs_of_estate estate.now) }
{
    let mut cidrs = Seq::new(alloc);
    for peer in &admin_peers(alloc, estate.admin_policies(), estate.baseline())? {
        add_peer(&mut cidrs, peer)?;
    }
    Ok(cidrs)
}

// Adds the blocks of a peer.
fn add_peer(cidrs: &mut Seq<Cidr>, peer: &AdminPeer) -> Result<(), NoMemory>
    ensures { OnOk result (cidrs.new ≡ cidrs.old ++ spec.cidrs_of_peer peer.now) }
{
    match peer {
        AdminPeer::Pods { .. } => Ok(()),
        AdminPeer::Networks { cidrs: more } => add_all(cidrs, more.items()),
    }
}

// Adds blocks, in order.
fn add_all(cidrs: &mut Seq<Cidr>, more: &[Cidr]) -> Result<(), NoMemory>
    ensures { OnOk result (cidrs.new ≡ cidrs.old ++ more.now) }
{
    for cidr in more {
        cidrs.push(*cidr)?;
    }
    Ok(())
}
