//! The text of a range of addresses.
ghost use Rattle.std.specs.Prelude.{◌≡◌, ◌++◌, [], ◌∷◌, IfOk, codes, if◌then◌else◌, nat_le};
ghost use Rattle.std.specs.List.{join_by};
ghost use Rattle.np_addr.specs.Prelude.{address_text, cidr_text, prefixes_of};
ghost use Rattle.np_report.specs.RowText as spec;

use np_addr::{AddrSet, Address, Cidr, prefixes, print_address, print_cidr};
use np_args::Report;
use np_base::{Beside, NoMemory, Point, Range, Text};
use np_sets::{Cells, IntervalSet};
use np_table::AddressSpan;
use std::alloc::Global;

// The text of a range, as the report says: by its ends, or by its blocks.
pub(crate) fn span_text(
    alloc: Global,
    addresses: AddressSpan,
    report: Report,
) -> Result<Text, NoMemory>
    ensures { IfOk result (λ text. text ≡ spec.span_text report addresses) }
{
    match report {
        Report::One => ends_text(alloc, addresses),
        Report::Two => {
            let blocks = prefixes(alloc, &set_of(alloc, addresses)?)?;
            joined(alloc, blocks.items())
        }
    }
}

// The text of a range by its ends.
fn ends_text(alloc: Global, addresses: AddressSpan) -> Result<Text, NoMemory>
    ensures { IfOk result (λ text. text ≡ spec.span_text Report.One addresses) }
{
    match addresses {
        AddressSpan::Four(range) => {
            let is_one = range.lo == range.hi;
            text_between(
                alloc,
                Address::Four(range.lo),
                Address::Four(range.hi),
                is_one,
            )
        }
        AddressSpan::Six(range) => {
            let is_one = range.lo == range.hi;
            text_between(
                alloc,
                Address::Six(range.lo),
                Address::Six(range.hi),
                is_one,
            )
        }
    }
}

// One address as itself, more of them as `lo-hi`.
fn text_between(alloc: Global, lo: Address, hi: Address, is_one: bool) -> Result<Text, NoMemory>
    ensures { IfOk result (λ text. text ≡ (if is_one then address_text lo else address_text lo ++ codes "-" ++ address_text hi)) }
{
    let first = print_address(alloc, lo)?;
    if is_one {
        return Ok(first);
    }
    let last = print_address(alloc, hi)?;
    Ok(Text::from_string(format!(in alloc; "{first}-{last}")?))
}

// The addresses of a range.
fn set_of(alloc: Global, addresses: AddressSpan) -> Result<AddrSet, NoMemory>
    ensures { IfOk result (λ set. prefixes_of set ≡ spec.blocks_of addresses) }
{
    match addresses {
        AddressSpan::Four(range) => Ok(Beside {
            first: points_of(alloc, range)?,
            second: no_points(alloc)?,
        }),
        AddressSpan::Six(range) => Ok(Beside {
            first: no_points(alloc)?,
            second: points_of(alloc, range)?,
        }),
    }
}

// The points of a range: none where it ends before it begins.
fn points_of<P: Point>(alloc: Global, range: Range<P>) -> Result<IntervalSet<P>, NoMemory>
    ensures { IfOk result (λ made.
        made ≡ (if nat_le (P.number_of range.lo) (P.number_of range.hi) then range ∷ [] else [])) }
{
    if range.lo.number() <= range.hi.number() {
        IntervalSet::of_range(alloc, range.lo, range.hi)
    } else {
        no_points(alloc)
    }
}

// No points.
fn no_points<P: Point>(alloc: Global) -> Result<IntervalSet<P>, NoMemory>
    ensures { IfOk result (λ made. made ≡ []) }
{
    let none = IntervalSet::nothing(alloc)?;
    Ok(none)
}

// Blocks joined by commas.
fn joined(alloc: Global, blocks: &[Cidr]) -> Result<Text, NoMemory>
    ensures { IfOk result (λ text. text ≡ join_by cidr_text (codes ",") blocks.now) }
{
    let Some((first, others)) = blocks.split_first() else {
        return Text::of(alloc, "");
    };
    let first = print_cidr(alloc, *first)?;
    let mut text = format!(in alloc; "{first}")?;
    for block in others {
        let next = print_cidr(alloc, *block)?;
        write!(text, ",{next}")?;
    }
    Ok(Text::from_string(text))
}
