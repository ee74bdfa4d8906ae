//! What follows from the definitions. Each law is the contract of a call that does nothing.
ghost use Rattle.std.specs.Prelude.{◌≡◌, ◌≢◌, ◌<◌, ◌≤◌, ◌↔◌, ℕ, [], Bool, true, false, All, Contains, length};
ghost use Rattle.np_addr.specs.declared.address.Family.{Family};
ghost use Rattle.np_addr.specs.declared.address.Family.TheVariants.{Four, Six};
ghost use Rattle.np_classes.specs.Classes.{class_of};
ghost use Rattle.np_conns.specs.Prelude.{are_same_conns, conns_of, is_spot};
ghost use Rattle.np_conns.specs.declared.port_spot.PortSpot.{PortSpot};
ghost use Rattle.np_model.specs.Prelude.{IsLawful, families_of};
ghost use Rattle.np_model.specs.declared.lists.EstateLists.{EstateLists};
ghost use Rattle.np_fold.specs.Prelude.{Folding, folding_of, kinds_alike, members_of, workload_count, workload_number};
ghost use Rattle.np_model.specs.declared.direction.Direction.{Direction};
ghost use Rattle.np_table.specs.Prelude.{AllowSamePorts, IsInFamily, IsUnmarked, OneRowSays, Table, all_rows, allows_in, pair_rows, rows_between, table_of};
ghost use Rattle.np_rules.specs.Prelude.{pod, pod_at};
ghost use Rattle.np_kinds.specs.Prelude.{address_allows, between_pods, is_alone, pair_allows, with_address};

/// Folding loses no verdict: between every two different pods passes what passes between their workloads, and between a
/// pod and every address what passes between its workload and the address.
pub fn workloads_stand_for_their_pods()
    ensures pairs { (lists : EstateLists) (p q : ℕ) (family : Family) (spot : PortSpot) → IsLawful lists →
        p < length lists.pods → q < length lists.pods → p ≢ q →
        between_pods lists p q family spot
        ≡ pair_allows lists (folding_of lists) (workload_number lists p) (workload_number lists q) family spot }
    ensures addresses { (lists : EstateLists) (p : ℕ) (direction : Direction) (family : Family) (number : ℕ) (spot : PortSpot) →
        IsLawful lists → p < length lists.pods →
        with_address lists direction (pod (pod_at lists p)) family number spot
        ≡ address_allows lists (folding_of lists) (workload_number lists p) direction family number spot }
{}

/// What passes between two workloads depends on their kinds alone, where neither pair is a workload of one pod with itself.
pub fn kinds_give_the_pairs()
    ensures { (lists : EstateLists) (a a' b b' : ℕ) (family : Family) (spot : PortSpot) → IsLawful lists →
        a < workload_count lists → a' < workload_count lists → b < workload_count lists → b' < workload_count lists →
        class_of (kinds_alike lists) (workload_count lists) a ≡ class_of (kinds_alike lists) (workload_count lists) a' →
        class_of (kinds_alike lists) (workload_count lists) b ≡ class_of (kinds_alike lists) (workload_count lists) b' →
        is_alone (folding_of lists) a b ≡ false → is_alone (folding_of lists) a' b' ≡ false →
        pair_allows lists (folding_of lists) a b family spot ≡ pair_allows lists (folding_of lists) a' b' family spot }
{}

/// The rows of two workloads say exactly which ports pass between them in each family of the table, and so between
/// every two different pods of them.
pub fn rows_say_what_passes()
    ensures pair { (table : Table) (source destination : ℕ) (family : Family) (spot : PortSpot) →
        Contains table.families family → is_spot spot ≡ true →
        allows_in (pair_rows table source destination) family spot ≡ table.pairs source destination family spot }
    // Of all rows of the table those from the one workload to the other are the pair's.
    ensures among_all { (table : Table) (source destination : ℕ) →
        source < length table.names → destination < length table.names →
        rows_between source destination (all_rows table) ≡ pair_rows table source destination }
    ensures pods { (lists : EstateLists) (p q : ℕ) (family : Family) (spot : PortSpot) → IsLawful lists →
        p < length lists.pods → q < length lists.pods → p ≢ q →
        Contains (families_of lists.pods) family → is_spot spot ≡ true →
        allows_in (rows_between (workload_number lists p) (workload_number lists q)
        (all_rows (table_of lists (folding_of lists)))) family spot
        ≡ between_pods lists p q family spot }
{}

/// In a table of both families no row of two workloads has a mark exactly where the same ports pass in both, and then
/// there is one row at most.
pub fn one_row_where_the_same_ports_pass()
    // The test by which the rows are made tells it.
    ensures test { (four six : PortSpot → Bool) →
        (are_same_conns (conns_of four) (conns_of six) ≡ true) ↔ AllowSamePorts four six }
    ensures unmarked { (table : Table) (source destination : ℕ) →
        Contains table.families Four → Contains table.families Six →
        (All IsUnmarked (pair_rows table source destination))
        ↔ AllowSamePorts (table.pairs source destination Four) (table.pairs source destination Six) }
    ensures one { (table : Table) (source destination : ℕ) →
        Contains table.families Four → Contains table.families Six →
        AllowSamePorts (table.pairs source destination Four) (table.pairs source destination Six) →
        length (pair_rows table source destination) ≤ 1 }
{}

/// For every workload, direction and address exactly one row says what passes between them, and it says exactly which ports
/// do, and so between the address and every pod of the workload.
pub fn one_row_for_each_address()
    ensures table { (table : Table) (workload : ℕ) (direction : Direction) (family : Family) (number : ℕ) →
        workload < length table.names → IsInFamily family number →
        OneRowSays workload direction family number (all_rows table)
        (table.addresses workload direction family number) }
    ensures pods { (lists : EstateLists) (p : ℕ) (direction : Direction) (family : Family) (number : ℕ) → IsLawful lists →
        p < length lists.pods → IsInFamily family number →
        OneRowSays (workload_number lists p) direction family number (all_rows (table_of lists (folding_of lists)))
        (with_address lists direction (pod (pod_at lists p)) family number) }
{}

/// A workload of one pod has no row with itself.
pub fn no_row_with_itself()
    ensures { (lists : EstateLists) (folding : Folding) (source : ℕ) → length (members_of folding source) ≡ 1 →
        pair_rows (table_of lists folding) source source ≡ [] }
{}
