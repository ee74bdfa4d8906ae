//! The addresses of a block without some of its parts.
ghost use Rattle.std.specs.Prelude.{◌≡◌, ℕ, ◌+◌, ◌-◌, ◌^◌, ◌≤◌, ◌↔◌, Err, Some, IfOk, IsOk, All, min};
ghost use Rattle.std.specs.List.{list_any};
ghost use Rattle.np_addr.specs.Addresses.{IsAddress, IsCidr, cidr_has};
ghost use Rattle.np_addr.specs.Blocks.{set_has, IsAddressSet, is_strict_part, first_bad_except, block_has};
ghost use Rattle.np_addr.specs.declared.address.Address.{Address};

use crate::cidr::{Cidr, base_of, bits_of, cidr_has, free_bits, low_bits};
use np_base::{Beside, Cells, NoMemory, Point, V4, V6, join_all};
use np_sets::IntervalSet;
use std::alloc::Global;
use std::fmt;

/// A set of addresses of both families. Its spots are `Which::First` of an IPv4 address and `Which::Second` of an
/// IPv6 address.
pub type AddrSet = Beside<IntervalSet<V4>, IntervalSet<V6>>;

/// Why a block has no set.
#[derive(Clone, Copy, Debug, PartialEq, Eq)]
pub enum BlockFault {
    /// The except at this place, from 0, is no strict part of the block: it is not in the block, or it is all of it.
    BadExcept { place: u64 },
    /// The system refused memory.
    NoMemory,
}

impl From<NoMemory> for BlockFault {
    ghost use Rattle.np_addr.specs.declared.block.BlockFault.TheVariants.{NoMemory};

    ghost from_gives = { λ _ fault. fault ≡ NoMemory };

    fn from(_error: NoMemory) -> BlockFault {
        BlockFault::NoMemory
    }
}

impl fmt::Display for BlockFault {
    ghost use Rattle.std.specs.Prelude.{Some};
    ghost use Rattle.np_addr.specs.Faults.{block_fault_text};

    ghost output = { λ fault. Some (block_fault_text fault) };

    fn fmt<W: fmt::Write>(&self, f: &mut fmt::Formatter<W>) -> fmt::Result {
        match self {
            BlockFault::BadExcept { place } => {
                let place = *place;
                write!(
                    f,
                    "the except at place {place} is no strict part of its block"
                )
            }
            BlockFault::NoMemory => write!(f, "out of memory"),
        }
    }
}

impl std::error::Error for BlockFault {}

/// The addresses that are in the block and in none of the excepts (`ipBlock` of a NetworkPolicy of the Kubernetes
/// API). Each except is to be a strict part of the block: `BadExcept` names the first that is not.
///
/// The excepts are joined in halves and taken away at once, so n excepts take time n log n.
pub fn block_set(alloc: Global, cidr: Cidr, excepts: &[Cidr]) -> Result<AddrSet, BlockFault>
    requires block { IsCidr cidr }
    requires excepts { All IsCidr excepts.now }
    ensures members { IfOk result (λ set. (address : Address) →
        set_has set address ≡ block_has cidr excepts.now address) }
    ensures well { IfOk result IsAddressSet }
    ensures bad { (place : ℕ) → (result ≡ Err (BlockFault.BadExcept place)) ↔ (first_bad_except cidr excepts.now ≡ Some place) }
{
    if let Some(place) = first_bad_except(&cidr, excepts) {
        return Err(BlockFault::BadExcept {
            place: place as u64,
        });
    }
    let whole = cidr_set(alloc, &cidr)?;
    let holes = blocks_set(alloc, excepts)?;
    Ok(whole.minus(&holes)?)
}

// The addresses that are in some of the blocks.
fn blocks_set(alloc: Global, blocks: &[Cidr]) -> Result<AddrSet, NoMemory>
    requires { All IsCidr blocks.now }
    ensures members { IfOk result (λ made. (address : Address) →
        set_has made address ≡ list_any (λ block. cidr_has block address) blocks.now) }
    ensures well { IfOk result IsAddressSet }
{
    let mut sets = Vec::new(alloc);
    for block in blocks {
        sets.push(cidr_set(alloc, block)?)?;
    }
    join_all(alloc, &sets)
}

/// The place of the first except that is no strict part of the block, from 0: it is not in the block, or it is all of it.
pub fn first_bad_except(block: &Cidr, excepts: &[Cidr]) -> Option<usize>
    ensures { result ≡ first_bad_except block.now excepts.now }
{
    excepts
        .iter()
        .position(|except| !is_strict_part(block, except))
}

// Whether the second block is a part of the first, and not all of it.
fn is_strict_part(block: &Cidr, except: &Cidr) -> bool
    ensures { result ≡ is_strict_part block.now except.now }
{
    bits_of(block) < bits_of(except) && cidr_has(block, base_of(except))
}

/// All addresses of the block. Where it is not well formed, it is cut at the greatest address of its family. It takes
/// no memory.
pub fn cidr_set(alloc: Global, cidr: &Cidr) -> Result<AddrSet, NoMemory>
    ensures members { IfOk result (λ set. (address : Address) → IsAddress address →
        set_has set address ≡ cidr_has cidr.now address) }
    ensures exact { IsCidr cidr.now → IfOk result (λ set. (address : Address) →
        set_has set address ≡ cidr_has cidr.now address) }
    ensures well { IfOk result IsAddressSet }
    ensures succeeds { IsOk result }
{
    match cidr {
        Cidr::Four { base, length } => Ok(Beside {
            first: IntervalSet::of_range(alloc, *base, last_of(*base, free_bits(32, *length)))?,
            second: IntervalSet::nothing(alloc)?,
        }),
        Cidr::Six { base, length } => Ok(Beside {
            first: IntervalSet::nothing(alloc)?,
            second: IntervalSet::of_range(alloc, *base, last_of(*base, free_bits(128, *length)))?,
        }),
    }
}

// The last point of those that begin at `base`, in which `free` bits are free, or the greatest point.
fn last_of<P: Point>(base: P, free: u8) -> P
    requires { free ≤ 128 }
    ensures last { P.number_of result ≡ min (P.number_of base + 2 ^ free - 1) P.HIGH }
    ensures ordered { P.number_of base ≤ P.number_of result }
    ensures high { P.number_of result ≤ P.HIGH }
{
    let first = base.number();
    let more = low_bits(free);
    if more < P::HIGH - first {
        P::at(first + more).unwrap()
    } else {
        P::at(P::HIGH).unwrap()
    }
}
