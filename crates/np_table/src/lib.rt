//! The table: what passes between workloads, and between workloads and all addresses.
#![tactic(auto)]

mod all_rows;
mod known_addresses;
mod laws;
mod pair_sets;
mod range_laws;
mod row_cache;
mod rows;
mod rows_by_kind;
mod rows_of_addresses;
mod rows_of_pairs;
mod shared_rows;

pub use all_rows::Rows;
pub use known_addresses::KnownAddresses;
pub use laws::{
    kinds_give_the_pairs, no_row_with_itself, one_row_for_each_address,
    one_row_where_the_same_ports_pass, rows_say_what_passes, workloads_stand_for_their_pods,
};
pub use pair_sets::{count_ends, pair_set, set_between, set_by_kinds};
pub use range_laws::{
    each_number_is_in_one_range, equal_tests_have_one_list, one_list_is_right, pieces_are_right,
};
pub use rows::{AddressRow, AddressSpan, Row, RowEnd, RowKey};
pub use rows_of_addresses::{
    address_rows, address_rows_by_kind, pod_for_addresses, rows_by_addresses,
};
pub use rows_of_pairs::pair_rows;
pub use shared_rows::SharedRows;
