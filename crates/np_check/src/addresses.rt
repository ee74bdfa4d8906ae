//! Packets between a workload and addresses.
ghost use Rattle.std.specs.Prelude.{◌≡◌, ◌<◌, ℕ, Bool, None, Some, All, IfOk, MatchOption, map, option_map, false, true};
ghost use Rattle.np_addr.specs.Prelude.{IsAddressSet, family_of};
ghost use Rattle.np_addr.specs.declared.address.Family.{Family};
ghost use Rattle.np_base.specs.Ranges.{holds, IsAscending};
ghost use Rattle.np_check.specs.Counterexamples.{addresses_of, counterexample_between};
ghost use Rattle.np_check.specs.Firsts.{first_given};
ghost use Rattle.np_check.specs.steps.Broken as spec;
ghost use Rattle.np_check.specs.declared.counterexample.PlaceEnd.TheVariants.{At, Work};
ghost use Rattle.np_conns.specs.declared.port_spot.PortSpot.{PortSpot};
ghost use Rattle.np_table.specs.Prelude.{rows_of_addresses};
ghost use Rattle.np_fold.specs.Prelude.{folding_of};
ghost use Rattle.np_kinds.specs.Prelude.{IsWorkload, address_allows};

use crate::checker::Checker;
use crate::claim::Claim;
use crate::counterexample::{Counterexample, PlaceEnd};
use crate::order::comes_before;
use np_addr::{AddrSet, Address, family_of};
use np_base::{Cells, NoMemory, Point, Range, later};
use np_conns::PortSpot;
use np_model::Direction;
use np_table::{AddressRow, AddressSpan};

/// The first packet from a workload to the addresses of a set that breaks a statement.
pub(crate) fn first_to_addresses(
    checker: &mut Checker<'_>,
    claim: &Claim<'_>,
    source: u32,
    block: &AddrSet,
) -> Result<Option<Counterexample>, NoMemory>
    requires { IsWorkload checker.old source }
    ensures counterexample { IfOk result (λ made. made ≡ first_given
        (λ address. counterexample_between checker.old claim.now.wanted claim.now.conns.now (Work source) (At address))
        (addresses_of block.now)) }
    ensures same { checker.new ≡ checker.old }
{
    if block.is_empty() {
        return Ok(None);
    }
    let Some(broken) = first_with(checker, claim, source, Direction::Egress, block)? else {
        return Ok(None);
    };
    Ok(Some(Counterexample {
        source: PlaceEnd::Work(source),
        destination: PlaceEnd::At(broken.address),
        family: family_of(broken.address),
        spot: broken.spot,
    }))
}

/// The first packet from the addresses of a set to some workloads that breaks a statement: by the address, and then by the
/// workload. For each workload the first address is found, and of these the first is taken.
pub(crate) fn first_from_addresses(
    checker: &mut Checker<'_>,
    claim: &Claim<'_>,
    block: &AddrSet,
    destinations: &[u32],
) -> Result<Option<Counterexample>, NoMemory>
    requires { All (IsWorkload checker.old) destinations.now }
    ensures counterexample { IfOk result (λ made. made ≡ first_given
        (λ address. first_given
        (λ destination. counterexample_between checker.old claim.now.wanted claim.now.conns.now (At address) (Work destination))
        destinations.now) (addresses_of block.now)) }
    ensures same { checker.new ≡ checker.old }
{
    let mut first = None;
    if block.is_empty() {
        return Ok(first);
    }
    for destination in destinations {
        let found = first_from(checker, claim, block, *destination)?;
        first = earlier(first, found);
    }
    Ok(first)
}

// The first packet from the addresses of a set to a workload that breaks a statement.
fn first_from(
    checker: &mut Checker<'_>,
    claim: &Claim<'_>,
    block: &AddrSet,
    destination: u32,
) -> Result<Option<Counterexample>, NoMemory>
    requires destination { IsWorkload checker.old destination }
    requires block { IsAddressSet block.now }
    ensures counterexample { IfOk result (λ made. made ≡ first_given
        (λ address. counterexample_between checker.old claim.now.wanted claim.now.conns.now (At address) (Work destination))
        (addresses_of block.now)) }
    ensures same { checker.new ≡ checker.old }
{
    let Some(broken) = first_with(checker, claim, destination, Direction::Ingress, block)? else {
        return Ok(None);
    };
    Ok(Some(Counterexample {
        source: PlaceEnd::At(broken.address),
        destination: PlaceEnd::Work(destination),
        family: family_of(broken.address),
        spot: broken.spot,
    }))
}

// Of two packets the one whose source comes first; where both have one source, the first of the two.
fn earlier(first: Option<Counterexample>, found: Option<Counterexample>) -> Option<Counterexample>
    ensures { result ≡ spec.earlier first found }
{
    match found {
        None => first,
        Some(counterexample) => match first {
            None => Some(counterexample),
            Some(first) => Some(earlier_of(first, counterexample)),
        },
    }
}

// The same of two that are there.
fn earlier_of(first: Counterexample, second: Counterexample) -> Counterexample
    ensures { result ≡ spec.earlier_of first second }
{
    if comes_before(&second.source, &first.source) {
        second
    } else {
        first
    }
}

/// An address, and a protocol and port at which a packet with it breaks a statement.
#[derive(Clone, Copy)]
pub(crate) struct BreakingAddress {
    pub address: Address,
    pub spot: PortSpot,
}

// The first address of a set with which a packet of a workload in a direction breaks a statement. What passes with addresses is
// found once for workloads whose sides are the same.
fn first_with(
    checker: &mut Checker<'_>,
    claim: &Claim<'_>,
    work: u32,
    direction: Direction,
    block: &AddrSet,
) -> Result<Option<BreakingAddress>, NoMemory>
    requires work { IsWorkload checker.old work }
    requires block { IsAddressSet block.now }
    ensures broken { IfOk result (λ made. made ≡ spec.first_broken_of claim.now.wanted claim.now.conns.now block.now
        (address_allows checker.old (folding_of checker.old) work direction)) }
    ensures same { checker.new ≡ checker.old }
{
    let rows = checker.find_addresses(work, direction)?;
    first_broken(claim, rows.items(), block)
}

// The first address of a set with which a packet breaks a statement, by what passes with each range of addresses.
fn first_broken(
    claim: &Claim<'_>,
    rows: &[AddressRow],
    block: &AddrSet,
) -> Result<Option<BreakingAddress>, NoMemory>
    requires { IsAddressSet block.now }
    ensures { (passes : Family → ℕ → PortSpot → Bool) → rows.now ≡ rows_of_addresses passes →
        IfOk result (λ made. made ≡ spec.first_broken_of claim.now.wanted claim.now.conns.now block.now passes) }
{
    for row in rows {
        let found = first_broken_in(claim, row, block)?;
        if found.is_some() {
            return Ok(found);
        }
    }
    Ok(None)
}

// The same in one range.
fn first_broken_in(
    claim: &Claim<'_>,
    row: &AddressRow,
    block: &AddrSet,
) -> Result<Option<BreakingAddress>, NoMemory>
    ensures { IfOk result (λ made. made ≡ spec.broken_in claim.now.wanted claim.now.conns.now block.now row.now) }
{
    let Some(address) = first_within(block, row.span) else {
        return Ok(None);
    };
    let Some(spot) = claim.first_broken(&row.conns)? else {
        return Ok(None);
    };
    Ok(Some(BreakingAddress { address, spot }))
}

// The first address of a set in a range.
fn first_within(block: &AddrSet, span: AddressSpan) -> Option<Address>
    ensures { result ≡ spec.first_within block.now span }
{
    match span {
        AddressSpan::Four(range) => first_point(block.first.ranges(), range).map(Address::Four),
        AddressSpan::Six(range) => first_point(block.second.ranges(), range).map(Address::Six),
    }
}

// The first point of two ranges of which the one ends no earlier than the other begins.
fn first_of_both<P: Point>(range: Range<P>, within: Range<P>) -> Option<P>
    ensures { option_map P.number_of result
        ≡ spec.first_common (P.number_of range.lo) (P.number_of within.lo) (P.number_of within.hi) }
{
    let first = later(range.lo, within.lo);
    if first.number() <= within.hi.number() {
        Some(first)
    } else {
        None
    }
}

// The first point of some ranges in a range.
fn first_point<P: Point>(ranges: &[Range<P>], within: Range<P>) -> Option<P>
    ensures { option_map P.number_of result
        ≡ spec.first_number P.number_of ranges.now (P.number_of within.lo) (P.number_of within.hi) }
{
    for range in ranges {
        if within.lo.number() <= range.hi.number() {
            return first_of_both(*range, within);
        }
    }
    None
}
