//! The lists of an estate.

use crate::admin_policy::{AdminPolicy, BasePolicy};
use crate::network_policy::NetPolicy;
use crate::notes::Notes;
use crate::placed_ingress::PlacedIngress;
use crate::pod::Pod;
use crate::service::ServiceItem;
use np_base::Seq;

/// What a list says, kind by kind.
pub struct EstateLists {
    /// In the order of the items; a template's pod stands at its controller's place.
    pub pods: Seq<Pod>,
    /// In the byte order of their namespaces and then of their names, where they were read from JSON.
    pub net_policies: Seq<NetPolicy>,
    /// In the order of their priorities.
    pub admin_policies: Seq<AdminPolicy>,
    pub baseline: Option<BasePolicy>,
    /// In the order of the items.
    pub services: Seq<ServiceItem>,
    /// In the order of the items.
    pub ingresses: Seq<PlacedIngress>,
    pub notes: Notes,
}

// Written out, so that letting one go is one call.
impl Drop for EstateLists {
    fn drop(self) {
        let EstateLists {
            pods: _pods,
            net_policies: _net_policies,
            admin_policies: _admin_policies,
            baseline: _baseline,
            services: _services,
            ingresses: _ingresses,
            notes: _notes,
        } = self;
    }
}
