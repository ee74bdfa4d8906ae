//! The right list of blocks of a set of addresses.
ghost use Rattle.std.specs.Prelude.{◌≡◌, ◌+◌, ◌^◌, ◌≤◌, ◌++◌, IfOk, OnOk, All, flat_map};
ghost use Rattle.np_addr.specs.Prelude.{IsCidr, block_at, blocks_in, prefixes_of, range_prefixes, width_of};

use crate::address::{Family, width_of};
use crate::block::AddrSet;
use crate::cidr::{Cidr, low_bits};
use np_base::{NoMemory, Point, Range, Seq, V4, V6};
use std::alloc::Global;

/// The right list of a set: the fewest blocks that have its addresses and no other. They are disjoint, IPv4 stands before
/// IPv6, each family ascends, and each block whose addresses are all in the set lies in one of them.
///
/// A range of the set costs at most four calls for each bit of an address, and a block is put into the list once.
pub fn prefixes(alloc: Global, set: &AddrSet) -> Result<Seq<Cidr>, NoMemory>
    ensures list { IfOk result (λ made. made ≡ prefixes_of set.now) }
    ensures well { IfOk result (All IsCidr) }
{
    let mut blocks = Vec::new(alloc);
    push_ranges(&mut blocks, Family::Four, set.first.ranges())?;
    push_ranges(&mut blocks, Family::Six, set.second.ranges())?;
    Ok(Seq::from_vec(blocks))
}

// Puts last the blocks of each range, in order.
fn push_ranges<P: Point>(
    blocks: &mut Vec<Cidr>,
    family: Family,
    ranges: &[Range<P>],
) -> Result<(), NoMemory>
    ensures { OnOk result (blocks.new.items ≡ blocks.old.items
        ++ flat_map (λ range. range_prefixes family
        (record { lo = P.number_of range.lo; hi = P.number_of range.hi })) ranges.now) }
{
    for range in ranges {
        let numbers = Range {
            lo: range.lo.number(),
            hi: range.hi.number(),
        };
        push_blocks(blocks, family, numbers, 0, width_of(family))?;
    }
    Ok(())
}

// Puts last the blocks of the range's numbers among those that begin at `base`, in which `free` bits are free.
//
// It cuts only a block that is partly in the range, and of the blocks of one length at most two are.
fn push_blocks(
    blocks: &mut Vec<Cidr>,
    family: Family,
    range: Range<u128>,
    base: u128,
    free: u8,
) -> Result<(), NoMemory>
    requires short { free ≤ width_of family }
    requires fits { base + 2 ^ free ≤ 2 ^ width_of family }
    ensures { OnOk result (blocks.new.items ≡ blocks.old.items ++ blocks_in family range base free) }
{
    let last = base + low_bits(free);
    if range.hi < base || last < range.lo {
        return Ok(());
    }
    if range.lo <= base && last <= range.hi {
        blocks.push(block_at(family, base, free))?;
        return Ok(());
    }
    let half = free - 1;
    let second = base + low_bits(half) + 1;
    push_blocks(blocks, family, range, base, half)?;
    push_blocks(blocks, family, range, second, half)
}

// The block of the family that begins at `base`, in which `free` bits are free.
fn block_at(family: Family, base: u128, free: u8) -> Cidr
    requires short { free ≤ width_of family }
    requires fits { base + 2 ^ free ≤ 2 ^ width_of family }
    ensures { result ≡ block_at family base free }
{
    match family {
        Family::Four => Cidr::Four {
            base: V4::at(base).unwrap(),
            length: 32 - free,
        },
        Family::Six => Cidr::Six {
            base: V6::at(base).unwrap(),
            length: 128 - free,
        },
    }
}
