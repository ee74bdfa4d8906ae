//! Whether two workloads differ in what passes.
ghost use Rattle.std.specs.Prelude.{◌≡◌, ◌≢◌, ◌++◌, IfOk, OnOk, not};
ghost use Rattle.std.specs.Cmp.Lexicographic.{pointwise};
ghost use Rattle.std.specs.List.{list_any};
ghost use Rattle.np_classes.specs.Classes.{places};
ghost use Rattle.np_flatten.specs.Faults as spec;
ghost use Rattle.np_flatten.specs.Prelude.{AreTwo, own_set};
ghost use Rattle.np_conns.specs.Prelude.{are_same_conns};
ghost use Rattle.np_base.specs.Ranges.{are_same_range};
ghost use Rattle.np_kinds.specs.Prelude.{IsWorkload, number_of_workloads};

use crate::passing::Passing;
use np_base::{Cells, NoMemory, Point, Range};
use np_conns::ConnSet;
use np_model::Direction;
use np_table::{AddressRow, AddressSpan};

/// Whether two workloads differ in what passes between them and a third, within and between them, or at some address in a
/// direction. At most four sets are held at a time.
#[tactic(auto, unfolding(crate::specs::Faults::differ))]
pub(crate) fn differ(passing: &mut Passing<'_>, a: u32, b: u32) -> Result<bool, NoMemory>
    requires a { IsWorkload passing.old a }
    requires b { IsWorkload passing.old b }
    requires apart { a ≢ b }
    ensures answer { IfOk result (λ answer. answer ≡ spec.differ passing.old a b) }
    ensures same { passing.new ≡ passing.old }
{
    if differ_at_some(passing, a, b)? {
        return Ok(true);
    }
    if differ_within(passing, a, b)? {
        return Ok(true);
    }
    if differ_towards(passing, a, b, Direction::Ingress)? {
        return Ok(true);
    }
    differ_towards(passing, a, b, Direction::Egress)
}

// Whether they differ in what passes between them and some third workload.
fn differ_at_some(passing: &mut Passing<'_>, a: u32, b: u32) -> Result<bool, NoMemory>
    requires a { IsWorkload passing.old a }
    requires b { IsWorkload passing.old b }
    ensures answer { IfOk result (λ answer.
        answer ≡ list_any (spec.differ_at passing.old a b) (places (number_of_workloads passing.old))) }
    ensures same { passing.new ≡ passing.old }
{
    for third in 0..passing.folded().workloads().count() {
        if differ_at(passing, a, b, third)? {
            return Ok(true);
        }
    }
    Ok(false)
}

// Whether they differ in what they send to a third workload, or in what they receive of it.
fn differ_at(passing: &mut Passing<'_>, a: u32, b: u32, third: u32) -> Result<bool, NoMemory>
    requires a { IsWorkload passing.old a }
    requires b { IsWorkload passing.old b }
    requires third { IsWorkload passing.old third }
    ensures answer { IfOk result (λ answer. answer ≡ spec.differ_at passing.old a b third) }
    ensures same { passing.new ≡ passing.old }
{
    if third == a || third == b {
        return Ok(false);
    }
    if pass_otherwise(passing, (a, third), (b, third))? {
        return Ok(true);
    }
    pass_otherwise(passing, (third, a), (third, b))
}

// Whether what passes from one workload to another differs from what passes from one of the other pair to its other.
fn pass_otherwise(
    passing: &mut Passing<'_>,
    pair: (u32, u32),
    other: (u32, u32),
) -> Result<bool, NoMemory>
    requires pair { AreTwo passing.old pair.0 pair.1 }
    requires other { AreTwo passing.old other.0 other.1 }
    ensures answer { IfOk result (λ answer.
        answer ≡ not (are_same_conns (spec.set_of passing.old pair.0 pair.1) (spec.set_of passing.old other.0 other.1))) }
    ensures same { passing.new ≡ passing.old }
{
    let set = passing.between(pair.0, pair.1)?;
    let others = passing.between(other.0, other.1)?;
    Ok(!are_same(&set, &others))
}

// Whether what passes within and between them differs.
fn differ_within(passing: &mut Passing<'_>, a: u32, b: u32) -> Result<bool, NoMemory>
    requires a { IsWorkload passing.old a }
    requires b { IsWorkload passing.old b }
    requires apart { a ≢ b }
    ensures answer { IfOk result (λ answer. answer ≡ spec.two_differ (spec.own_sets passing.old a b)) }
    ensures same { passing.new ≡ passing.old }
{
    let mut sets = Vec::new(passing.alloc());
    add_within(&mut sets, passing, a)?;
    sets.push(passing.between(a, b)?)?;
    sets.push(passing.between(b, a)?)?;
    add_within(&mut sets, passing, b)?;
    Ok(two_differ(&sets))
}

// Adds what passes within a workload, where it is defined.
fn add_within(sets: &mut Vec<ConnSet>, passing: &Passing<'_>, workload: u32) -> Result<(), NoMemory>
    requires { IsWorkload passing.now workload }
    ensures { OnOk result (sets.new.items ≡ sets.old.items ++ own_set passing.now workload workload) }
{
    if let Some(set) = passing.within(workload)? {
        sets.push(set)?;
    }
    Ok(())
}

// Whether some two of the sets differ.
fn two_differ(sets: &[ConnSet]) -> bool
    ensures { result ≡ spec.two_differ sets.now }
{
    sets.iter().any(|one| differs_from_some(one, sets))
}

// Whether a set differs from some other.
fn differs_from_some(one: &ConnSet, sets: &[ConnSet]) -> bool
    ensures { result ≡ list_any (λ other. not (are_same_conns one.now other)) sets.now }
{
    sets.iter().any(|other| !are_same(one, other))
}

// Whether two sets are the same.
fn are_same(one: &ConnSet, other: &ConnSet) -> bool
    ensures { result ≡ are_same_conns one.now other.now }
{
    one.same(other)
}

// Whether they differ in what passes at some address in a direction.
fn differ_towards(
    passing: &mut Passing<'_>,
    a: u32,
    b: u32,
    direction: Direction,
) -> Result<bool, NoMemory>
    requires a { IsWorkload passing.old a }
    requires b { IsWorkload passing.old b }
    ensures answer { IfOk result (λ answer. answer ≡ spec.differ_towards passing.old a b direction) }
    ensures same { passing.new ≡ passing.old }
{
    let rows_of_a = passing.with_addresses(a, direction)?;
    let rows_of_b = passing.with_addresses(b, direction)?;
    Ok(!are_same_rows(rows_of_a.items(), rows_of_b.items()))
}

// Whether two lists of rows are the same.
fn are_same_rows(rows: &[AddressRow], others: &[AddressRow]) -> bool
    ensures { result ≡ pointwise spec.are_same_address_row rows.now others.now }
{
    for (place, row) in rows.iter().enumerate() {
        let Some(other) = others.get(place) else {
            return false;
        };
        if !is_same_row(row, other) {
            return false;
        }
    }
    rows.len() == others.len()
}

// Whether two rows are the same.
fn is_same_row(row: &AddressRow, other: &AddressRow) -> bool
    ensures { result ≡ spec.are_same_address_row row.now other.now }
{
    is_same_span(row.span, other.span) && are_same(&row.conns, &other.conns)
}

// Whether two spans have the same addresses.
fn is_same_span(span: AddressSpan, other: AddressSpan) -> bool
    ensures { result ≡ spec.are_same_span span other }
{
    match (span, other) {
        (AddressSpan::Four(range), AddressSpan::Four(other)) => is_same_range(range, other),
        (AddressSpan::Six(range), AddressSpan::Six(other)) => is_same_range(range, other),
        _ => false,
    }
}

// Whether two ranges are the same.
fn is_same_range<P: Point>(range: Range<P>, other: Range<P>) -> bool
    ensures { result ≡ are_same_range (record { lo = P.number_of range.lo; hi = P.number_of range.hi })
        (record { lo = P.number_of other.lo; hi = P.number_of other.hi }) }
{
    range.lo.number() == other.lo.number() && range.hi.number() == other.hi.number()
}
