//! One far end.

use crate::far_ends::FarEnds;
use crate::peers::{admin_peers_match, net_peers_match};
use crate::port_sets::entries_set;
use crate::views::EndView;
use np_addr::Family;
use np_base::{Cells, NoMemory};
use np_conns::ConnSet;
use np_model::{AdminRule, NetRule};
use std::alloc::Global;

/// One far end, with the end that a packet goes to and its family. The spots stand for protocols and ports.
#[derive(Drop)]
pub(crate) struct OneEnd<'a> {
    pub far: &'a EndView<'a>,
    pub destination: &'a EndView<'a>,
    pub family: Family,
}

impl FarEnds<ConnSet> for OneEnd<'_> {
    ghost use Rattle.np_rules.specs.OneEnd.{one_contact};

    ghost contact_at = { one_contact };

    fn admin_set(&self, alloc: Global, rule: &AdminRule) -> Result<ConnSet, NoMemory> {
        if admin_peers_match(rule.peers.items(), self.far, self.family) {
            entries_set(alloc, rule.ports.items(), self.destination)
        } else {
            ConnSet::nothing(alloc)
        }
    }

    fn net_set(&self, alloc: Global, namespace: &str, rule: &NetRule) -> Result<ConnSet, NoMemory> {
        if net_peers_match(namespace, rule.peers.items(), self.far) {
            entries_set(alloc, rule.ports.items(), self.destination)
        } else {
            ConnSet::nothing(alloc)
        }
    }

    fn share(&self, before: Option<&ConnSet>, set: &mut ConnSet) -> Result<(), NoMemory> {
        set.share_with(before)
    }
}
