//! The blocks of addresses by which rules select pods, each once.
ghost use Rattle.std.specs.Prelude.{◌≡◌, IfOk, map};
ghost use Rattle.np_fold.specs.Prelude.{cidrs_of_estate};
ghost use Rattle.np_fold.specs.steps.Folded as folded;

use crate::blocks::listed_cidrs;
use np_addr::{Address, Cidr};
use np_base::{NoMemory, Seq};
use np_model::Estate;
use std::alloc::Global;
use std::collections::BTreeSet;

/// The blocks of all `networks` peers, each once. However many rules list a block, a pod that is in it keeps it once.
pub(crate) fn distinct_cidrs(alloc: Global, estate: &Estate) -> Result<Seq<Cidr>, NoMemory>
    ensures { IfOk result (λ made. folded.HaveSame made (cidrs_of_estate estate.now)) }
{
    let listed = listed_cidrs(alloc, estate)?;
    let starts = starts_of(alloc, listed.items())?;
    blocks_of(alloc, starts)
}

// The blocks of starts, in order.
fn blocks_of(alloc: Global, starts: BTreeSet<(Address, u8)>) -> Result<Seq<Cidr>, NoMemory>
    ensures { IfOk result (λ made. made ≡ map folded.block_at starts.keys) }
{
    let mut blocks = Seq::new(alloc);
    for start in starts {
        blocks.push(block_at(start))?;
    }
    Ok(blocks)
}

// The starts of blocks, each once.
fn starts_of(alloc: Global, cidrs: &[Cidr]) -> Result<BTreeSet<(Address, u8)>, NoMemory>
    ensures { IfOk result (λ made. folded.HaveSame (map folded.block_at made.keys) cidrs.now) }
{
    let mut starts = BTreeSet::new(alloc);
    for cidr in cidrs {
        starts.insert(start_of(*cidr))?;
    }
    Ok(starts)
}

// The first address of a block, and how many bits its addresses have in common.
fn start_of(cidr: Cidr) -> (Address, u8)
    ensures { result ≡ folded.start_of cidr }
{
    match cidr {
        Cidr::Four { base, length } => (Address::Four(base), length),
        Cidr::Six { base, length } => (Address::Six(base), length),
    }
}

// The block of a start.
fn block_at(start: (Address, u8)) -> Cidr
    ensures { result ≡ folded.block_at start }
{
    let (base, length) = start;
    match base {
        Address::Four(base) => Cidr::Four { base, length },
        Address::Six(base) => Cidr::Six { base, length },
    }
}
