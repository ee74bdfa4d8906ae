//! Valid objects and policies are read: what the members of one may be stands in the words of the references.
ghost use Rattle.std.specs.Prelude.{◌≡◌, Ok, Some};
ghost use Rattle.serde_json.specs.Data.{Data};
ghost use Rattle.np_meaning.specs.ValidAdmin.{IsValidAdminPolicy, IsValidBasePolicy};
ghost use Rattle.np_meaning.specs.ValidControllers.{IsValidController};
ghost use Rattle.np_meaning.specs.ValidMembers.{IsValidNamespace};
ghost use Rattle.np_meaning.specs.ValidPods.{IsValidPod};
ghost use Rattle.np_meaning.specs.ValidPolicies.{IsValidNetPolicy};
ghost use Rattle.np_meaning.specs.ValidServices.{IsValidIngress, IsValidService};
ghost use Rattle.np_model.specs.declared.admin_policy.AdminPolicy.{AdminPolicy};
ghost use Rattle.np_model.specs.declared.admin_policy.BasePolicy.{BasePolicy};
ghost use Rattle.np_model.specs.declared.ingress.IngressItem.{IngressItem};
ghost use Rattle.np_model.specs.declared.network_policy.NetPolicy.{NetPolicy};
ghost use Rattle.np_model.specs.declared.service.ServiceItem.{ServiceItem};
ghost use Rattle.np_objects.specs.Prelude.{object_of};
ghost use Rattle.np_objects.specs.declared.controller.ControllerItem.{ControllerItem};
ghost use Rattle.np_objects.specs.declared.controller.ControllerKind.{ControllerKind};
ghost use Rattle.np_objects.specs.declared.namespace.NamespaceItem.{NamespaceItem};
ghost use Rattle.np_objects.specs.declared.object.Object.TheVariants.{Controller, Ingress, Namespace, Pod, Service};
ghost use Rattle.np_objects.specs.declared.pod_item.PodItem.{PodItem};
ghost use Rattle.np_policies.specs.Prelude.{policy_of};
ghost use Rattle.np_policies.specs.declared.policy.Policy.TheVariants.{Admin, Base, Net};

/// A Namespace whose members are as the API's reference says is not refused.
pub fn valid_namespaces_are_read()
    ensures { (value : Data) → IsValidNamespace value → (read : NamespaceItem) × (object_of value ≡ Ok (Namespace read)) }
{}

/// A Pod whose members are as the API's reference says is not refused.
pub fn valid_pods_are_read()
    ensures { (value : Data) → IsValidPod value → (read : PodItem) × (object_of value ≡ Ok (Pod read)) }
{}

/// A controller of pods whose members are as the API's reference says of its kind is not refused.
pub fn valid_controllers_are_read()
    ensures { (kind : ControllerKind) (value : Data) → IsValidController kind value →
        (read : ControllerItem) × (object_of value ≡ Ok (Controller read)) }
{}

/// A Service whose members are as the API's reference says is not refused.
pub fn valid_services_are_read()
    ensures { (value : Data) → IsValidService value → (read : ServiceItem) × (object_of value ≡ Ok (Service read)) }
{}

/// An Ingress whose members are as the API's reference says is not refused.
pub fn valid_ingresses_are_read()
    ensures { (value : Data) → IsValidIngress value → (read : IngressItem) × (object_of value ≡ Ok (Ingress read)) }
{}

/// A NetworkPolicy whose members are as the API's reference says is not refused.
pub fn valid_network_policies_are_read()
    ensures { (value : Data) → IsValidNetPolicy value → (read : NetPolicy) × (policy_of value ≡ Ok (Some (Net read))) }
{}

/// An AdminNetworkPolicy whose members are as the API's reference says is not refused, where no peer stands for nodes or for domain
/// names.
pub fn valid_admin_policies_are_read()
    ensures { (value : Data) → IsValidAdminPolicy value → (read : AdminPolicy) × (policy_of value ≡ Ok (Some (Admin read))) }
{}

/// A BaselineAdminNetworkPolicy whose members are as the API's reference says is not refused, where no peer stands for nodes or for
/// domain names.
pub fn valid_baselines_are_read()
    ensures { (value : Data) → IsValidBasePolicy value → (read : BasePolicy) × (policy_of value ≡ Ok (Some (Base read))) }
{}
