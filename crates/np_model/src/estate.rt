//! The whole of what a list says.
ghost use Rattle.std.specs.Prelude.{◌≡◌, ◌<◌, ◌^◌, length, AllPairs, IfSome};
ghost use Rattle.std.specs.Option.{option_copied};
ghost use Rattle.np_model.specs.Families.{families_of};
ghost use Rattle.np_model.specs.Lawful.{HasAscendingPriorities, PolicyStandsBefore};
ghost use Rattle.np_model.specs.PodPlaces as places;

use crate::admin_policy::{AdminPolicy, BasePolicy};
use crate::families::families_of;
use crate::lists::EstateLists;
use crate::network_policy::NetPolicy;
use crate::notes::Notes;
use crate::placed_ingress::PlacedIngress;
use crate::pod::Pod;
use crate::service::ServiceItem;
use np_addr::Family;
use std::marker::Model;

/// The whole of what a list says, to be looked at. Contracts see it as its lists. Its admin policies ascend strictly
/// in priority, so that the first of them that matches is the one that decides, and its NetworkPolicies in namespace and
/// name, so that those of a namespace stand together.
pub struct Estate {
    lists: EstateLists,
    families: &'static [Family],
}

// Written out, so that letting one go is one call.
impl Drop for Estate {
    fn drop(self) {
        let Estate {
            lists: _lists,
            families: _families,
        } = self;
    }
}

impl Model for Estate {
    ghost use Rattle.std.specs.Prelude.{◌≡◌};
    ghost use Rattle.std.specs.Prelude.{AllPairs};
    ghost use Rattle.np_model.specs.declared.lists.EstateLists.{EstateLists};

    ghost Value = { EstateLists };

    ghost use Rattle.np_model.specs.Families.{families_of};
    ghost use Rattle.np_model.specs.Lawful.{HasAscendingPriorities, PolicyStandsBefore};

    ghost view = { λ e. e.lists };

    ghost invariant = { λ e. (e.families.now ≡ families_of e.lists.pods) × HasAscendingPriorities e.lists.admin_policies × AllPairs PolicyStandsBefore e.lists.net_policies };
}

impl Estate {
    /// The estate of these lists. It takes no memory.
    pub fn of(lists: EstateLists) -> Estate
        requires admin_policies { HasAscendingPriorities lists.admin_policies }
        requires net_policies { AllPairs PolicyStandsBefore lists.net_policies }
        ensures { result ≡ lists }
    {
        let families = families_of(lists.pods.items());
        Estate { lists, families }
    }

    /// The pods, in the order of the items. A template's pod stands at its controller's place.
    pub fn pods(&self) -> &[Pod]
        ensures { result.now ≡ self.now.pods }
    {
        self.lists.pods.items()
    }

    /// The place of the listed pod of a name, from 0. `None` exactly where there is none.
    pub fn pod(&self, namespace: &str, name: &str) -> Option<u32>
        requires { length self.now.pods < 2 ^ 32 }
        ensures { result ≡ places.place_of_pod self.now.pods namespace.now name.now }
    {
        match place_of_pod(self.pods(), namespace, name) {
            Some(place) => Some(place as u32),
            None => None,
        }
    }

    /// The families of which some pod has an address, IPv4 first, and IPv4 alone where no pod has one.
    pub fn families(&self) -> &[Family]
        ensures { result.now ≡ families_of self.now.pods }
    {
        self.families
    }

    /// The NetworkPolicies, in the strict order of their namespaces and names.
    pub fn net_policies(&self) -> &[NetPolicy]
        ensures value { result.now ≡ self.now.net_policies }
        ensures ascending { AllPairs PolicyStandsBefore self.now.net_policies }
    {
        self.lists.net_policies.items()
    }

    /// The AdminNetworkPolicies, in the strict order of their priorities.
    pub fn admin_policies(&self) -> &[AdminPolicy]
        ensures value { result.now ≡ self.now.admin_policies }
        ensures ascending { HasAscendingPriorities self.now.admin_policies }
    {
        self.lists.admin_policies.items()
    }

    /// The BaselineAdminNetworkPolicy, where one is listed.
    pub fn baseline(&self) -> Option<&BasePolicy>
        ensures { option_copied result ≡ self.now.baseline }
    {
        self.lists.baseline.as_ref()
    }

    /// The services, in the order of the items.
    pub fn services(&self) -> &[ServiceItem]
        ensures { result.now ≡ self.now.services }
    {
        self.lists.services.items()
    }

    /// The ingresses, in the order of the items.
    pub fn ingresses(&self) -> &[PlacedIngress]
        ensures { result.now ≡ self.now.ingresses }
    {
        self.lists.ingresses.items()
    }

    /// What was left out.
    pub fn notes(&self) -> Notes
        ensures { result ≡ self.now.notes }
    {
        self.lists.notes
    }
}

// The place of the listed pod of a name.
fn place_of_pod(pods: &[Pod], namespace: &str, name: &str) -> Option<usize>
    ensures value { result ≡ places.place_of_pod pods.now namespace.now name.now }
    ensures within { IfSome result (λ place. place < length pods.now) }
{
    pods.iter().position(|pod| is_pod(pod, namespace, name))
}

// Whether a pod is the listed one of that name.
fn is_pod(pod: &Pod, namespace: &str, name: &str) -> bool
    ensures { result ≡ places.is_pod namespace.now name.now pod.now }
{
    pod.listed && pod.namespace.as_str() == namespace && pod.name.as_str() == name
}
