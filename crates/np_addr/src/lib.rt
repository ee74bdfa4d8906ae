//! IP addresses and blocks of them: their texts, and the sets of addresses that blocks hold.
#![tactic(auto)]

mod address;
mod addresses;
mod block;
mod cidr;
mod groups;
mod ipv4;
mod ipv6;
mod laws;
mod numeral;
mod pieces;
mod prefix_list;
mod print;
mod read;

pub use address::{Address, Family, family_of};
pub use addresses::Addresses;
pub use block::{AddrSet, BlockFault, block_set, cidr_set, first_bad_except};
pub use cidr::{Cidr, cidr_has};
pub use laws::{
    block_is_first_bits, canonical_text_reads_again, canonical_texts_differ, longest_run_is_first,
    no_prefix_list_is_shorter, one_prefix_list_is_right, prefixes_are_right,
    printed_block_reads_again, strict_part_is_strict_subset, texts_are_read_exactly,
};
pub use prefix_list::prefixes;
pub use print::{print_address, print_cidr};
pub use read::{BadAddress, BadCidr, read_address, read_cidr};
