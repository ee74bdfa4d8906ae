//! What follows from the definitions. Each law is the contract of a call that does nothing.
ghost use Rattle.std.specs.Prelude.{◌≡◌, ◌≢◌, ◌<◌, ◌≤◌, ◌↔◌, ℕ, Option, true, false, length};
ghost use Rattle.np_addr.specs.declared.address.Family.{Family};
ghost use Rattle.np_conns.specs.Prelude.{is_spot};
ghost use Rattle.np_conns.specs.declared.port_spot.PortSpot.{PortSpot};
ghost use Rattle.np_conns.specs.declared.proto.Proto.TheVariants.{Tcp};
ghost use Rattle.np_model.specs.Prelude.{IsLawful};
ghost use Rattle.np_model.specs.declared.lists.EstateLists.{EstateLists};
ghost use Rattle.np_fold.specs.Prelude.{folding_of, workload_number};
ghost use Rattle.np_model.specs.declared.direction.Direction.{Direction};
ghost use Rattle.np_routes.specs.Prelude.{ClusterTable, LeadsTo, cluster_rows, cluster_table, ingress_allows, ingress_reaches, is_controller, is_routed, rows_from_controller, sender_of};
ghost use Rattle.np_rules.specs.Prelude.{PodEnd};
ghost use Rattle.np_table.specs.Prelude.{all_rows, allows_in, rows_between, rows_of_address};
ghost use Rattle.np_kinds.specs.Prelude.{IsWorkload};

/// A route leads to a TCP port of a pod exactly where the API says so: an ingress of the pod's namespace has a backend that
/// names a listed service and one of its TCP ports, the service serves the pod, and the port leads to the number there. To
/// ports of other protocols none leads.
pub fn ingresses_lead_as_the_api_says()
    ensures tcp { (lists : EstateLists) (p : PodEnd) (spot : PortSpot) → spot.proto ≡ Tcp →
        (is_routed lists p spot ≡ true) ↔ LeadsTo lists p spot.port }
    ensures others { (lists : EstateLists) (p : PodEnd) (spot : PortSpot) → spot.proto ≢ Tcp →
        is_routed lists p spot ≡ false }
{}

/// Folding loses no port that is reached through ingresses: those of every pod are those of its workload, unless that is
/// the controller itself.
pub fn workloads_stand_for_their_pods_behind_ingresses()
    ensures { (lists : EstateLists) (controller : Option ℕ) (p : ℕ) (spot : PortSpot) → IsLawful lists →
        p < length lists.pods →
        is_controller controller (workload_number lists p) ≡ false →
        ingress_reaches lists (sender_of (folding_of lists) controller) p spot
        ≡ ingress_allows lists (folding_of lists) controller (workload_number lists p) spot }
{}

/// Of all rows of a cluster one at most is from the controller to a workload. It says exactly which ports of the workload
/// are reached through ingresses, and so of every pod of it.
pub fn ingress_rows_say_what_passes()
    ensures table { (cluster : ClusterTable) (workload : ℕ) (family : Family) (spot : PortSpot) →
        workload < length cluster.table.names → is_spot spot ≡ true →
        allows_in (rows_from_controller workload (cluster_rows cluster)) family spot ≡ cluster.ingresses workload spot }
    ensures one { (cluster : ClusterTable) (workload : ℕ) → workload < length cluster.table.names →
        length (rows_from_controller workload (cluster_rows cluster)) ≤ 1 }
    ensures workloads { (lists : EstateLists) (controller : Option ℕ) (workload : ℕ) (family : Family) (spot : PortSpot) →
        IsWorkload lists workload → is_spot spot ≡ true →
        allows_in (rows_from_controller workload (cluster_rows (cluster_table lists controller))) family spot
        ≡ ingress_allows lists (folding_of lists) controller workload spot }
    ensures pods { (lists : EstateLists) (controller : Option ℕ) (p : ℕ) (family : Family) (spot : PortSpot) → IsLawful lists →
        p < length lists.pods →
        is_controller controller (workload_number lists p) ≡ false → is_spot spot ≡ true →
        allows_in (rows_from_controller (workload_number lists p) (cluster_rows (cluster_table lists controller))) family spot
        ≡ ingress_reaches lists (sender_of (folding_of lists) controller) p spot }
{}

/// The rows of ingresses change nothing of what the others say.
pub fn other_rows_stay()
    ensures pairs { (cluster : ClusterTable) (source destination : ℕ) →
        rows_between source destination (cluster_rows cluster) ≡ rows_between source destination (all_rows cluster.table) }
    ensures addresses { (cluster : ClusterTable) (workload : ℕ) (direction : Direction) (family : Family) (number : ℕ) →
        rows_of_address workload direction family number (cluster_rows cluster)
        ≡ rows_of_address workload direction family number (all_rows cluster.table) }
{}
