//! Addresses, their blocks and their texts, by example. More texts stand in transcripts/texts.txt.

use crate::sets::Written;
use np_addr::{
    AddrSet, Addresses, Cidr, block_set, cidr_set, prefixes, print_address, print_cidr,
    read_address, read_cidr,
};
use np_base::Seq;
use std::alloc::Global;
use std::process::Abort;

// RFC 4291, sections 2.2 and 2.3, and RFC 5952, section 4.
#[test]
fn canonical_text_of_an_address(rt: HostRuntime) {
    let address = read_address("2001:DB8:0:0:8:800:200C:417A").expect(&rt, "an address");
    let text = print_address(rt.alloc(), address).expect(&rt, "its text");
    assert!(rt; text.as_str() == "2001:db8::8:800:200c:417a");
}

#[test]
fn canonical_text_of_a_block(rt: HostRuntime) {
    let block = read_cidr("2001:0DB8:0:CD30:123:4567:89AB:CDEF/60").expect(&rt, "a block");
    let text = print_cidr(rt.alloc(), block).expect(&rt, "its text");
    assert!(rt; text.as_str() == "2001:db8:0:cd30::/60");
}

// A block without one of its parts.
fn block_without_a_part(rt: &impl Abort, alloc: Global) -> AddrSet {
    let block = read_cidr("10.0.0.0/14").expect(rt, "a block");
    let part = read_cidr("10.1.0.0/16").expect(rt, "its part");
    block_set(alloc, block, &[part]).expect(rt, "what is left")
}

#[test]
fn blocks_beside_a_part(rt: HostRuntime) {
    let left = block_without_a_part(&rt, rt.alloc());
    let blocks = prefixes(rt.alloc(), &left).expect(&rt, "its blocks");
    assert!(rt; are_beside_the_part(blocks.items()));
}

fn are_beside_the_part(blocks: &[Cidr]) -> bool {
    match blocks {
        [below, above] => {
            read_cidr("10.0.0.0/16") == Ok(*below) && read_cidr("10.2.0.0/15") == Ok(*above)
        }
        _ => false,
    }
}

// The addresses of a block.
impl Written for AddrSet {
    fn read<A: Abort>(rt: &A, alloc: Global, text: &str) -> AddrSet {
        let block = read_cidr(text).expect(rt, "a block");
        cidr_set(alloc, &block).expect(rt, "its addresses")
    }
}

// A list of one address.
fn one_address(rt: &impl Abort, alloc: Global) -> Addresses {
    let address = read_address("10.0.1.5").expect(rt, "an address");
    let mut listed = Seq::new(alloc);
    listed.push(address).expect(rt, "a list");
    Addresses::of(alloc, listed).expect(rt, "addresses")
}

// Whether a block has one of the addresses.
fn is_some_in(rt: &impl Abort, addresses: &Addresses, block: &str) -> bool {
    let block = read_cidr(block).expect(rt, "a block");
    addresses.some_in(&block)
}

#[test]
fn address_in_a_block(rt: HostRuntime) {
    let addresses = one_address(&rt, rt.alloc());
    assert!(rt;
        is_some_in(&rt, &addresses, "10.0.1.4/31"),
        "it is the last one"
    );
    assert!(rt;
        !is_some_in(&rt, &addresses, "10.0.1.6/31"),
        "it is the one before"
    );
}
