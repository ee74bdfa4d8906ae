//! What passes between a workload and all addresses.
ghost use Rattle.std.specs.Prelude.{◌≡◌, ◌-◌, ◌^◌, [], ◌∷◌, ◌++◌, map, IfOk, OnOk};
ghost use Rattle.np_addr.specs.declared.address.Family.TheVariants.{Four, Six};
ghost use Rattle.np_kinds.specs.Prelude.{IsWorkload};
ghost use Rattle.np_rules.specs.Prelude.{side_of};
ghost use Rattle.np_table.specs.Prelude.{estate_table, side_with_address, stretches_of, walk};
ghost use Rattle.np_table.specs.Rows as spec;

use crate::rows::{AddressRow, AddressSpan};
use np_base::{Cells, NoMemory, Range, Seq, V4, V6};
use np_conns::ConnSet;
use np_fold::Folded;
use np_kinds::{Sides, first_side};
use np_model::Direction;
use np_pieces::Piece;
use np_rules::{AddrConns, PodRules};
use std::alloc::Global;

/// What passes between a workload, named by its number, and each address of IPv4 and then of IPv6: from the addresses to it
/// in the direction of ingress, and from it to them in that of egress. The ranges of a family ascend and cover it, and other
/// protocols and ports pass in neighbours. All addresses are answered by one evaluation of the rules.
pub fn address_rows(
    alloc: Global,
    folded: &Folded,
    workload: u32,
    direction: Direction,
) -> Result<Seq<AddressRow>, NoMemory>
    requires { IsWorkload folded.now workload }
    ensures { IfOk result (λ made. made ≡ spec.address_rows (estate_table folded.now) workload direction) }
{
    let near = first_side(alloc, folded, direction, workload)?;
    rows_by_addresses(alloc, &near)
}

/// What passes between a workload and each address, as `address_rows` has it, by the rules of the pod that stands for its
/// kind, which are found unless they are known.
pub fn address_rows_by_kind(
    alloc: Global,
    sides: &mut Sides<'_>,
    workload: u32,
    direction: Direction,
) -> Result<Seq<AddressRow>, NoMemory>
    requires { IsWorkload sides.old.lists workload }
    ensures rows { IfOk result (λ made. made ≡ spec.address_rows (estate_table sides.old.lists) workload direction) }
    ensures lists { sides.new.lists ≡ sides.old.lists }
{
    sides.ask(direction, workload)?;
    let near = sides.at(direction, workload);
    rows_by_addresses(alloc, near)
}

/// A pod, by its place in the estate, between which and each address the same passes as between a workload and that address, by
/// the rules of the workload's kind, which are found unless they are known. It is mostly one pod for all workloads whose sides
/// are the same, so that what was found with addresses for one of these can serve for all. Only the rules of the kind take memory.
pub fn pod_for_addresses(
    sides: &mut Sides<'_>,
    workload: u32,
    direction: Direction,
) -> Result<u32, NoMemory>
    requires { IsWorkload sides.old.lists workload }
    ensures rows { IfOk result (λ pod. spec.rows_of_addresses (side_with_address (side_of sides.old.lists pod direction))
        ≡ spec.address_rows (estate_table sides.old.lists) workload direction) }
    ensures lists { sides.new.lists ≡ sides.old.lists }
{
    sides.ask(direction, workload)?;
    Ok(sides.like(direction, workload))
}

/// What passes between a pod and each address, by the pod's rules, as `address_rows` has it for the workload that the pod
/// stands for. A caller that asks about a workload more than once keeps its rules.
pub fn rows_by_addresses(alloc: Global, near: &PodRules<'_>) -> Result<Seq<AddressRow>, NoMemory>
    ensures { IfOk result (λ made. made ≡ spec.rows_of_addresses (side_with_address near.now)) }
{
    let conns = conns_at(alloc, near)?;
    rows_of_all(alloc, &conns)
}

// What passes between a pod and each address. An address has no rules, so the pod's own side decides.
fn conns_at(alloc: Global, near: &PodRules<'_>) -> Result<AddrConns, NoMemory>
    ensures four { IfOk result (λ made. stretches_of (λ number. number) made.first
        ≡ walk (side_with_address near.now Four) 0 (2 ^ 32 - 1)) }
    ensures six { IfOk result (λ made. stretches_of (λ number. number) made.second
        ≡ walk (side_with_address near.now Six) 0 (2 ^ 128 - 1)) }
{
    near.address_set(alloc)
}

// The ranges of both families as rows.
fn rows_of_all(alloc: Global, conns: &AddrConns) -> Result<Seq<AddressRow>, NoMemory>
    ensures { IfOk result (λ made. made
        ≡ map (spec.address_row spec.four_of) (stretches_of (λ number. number) conns.now.first)
        ++ map (spec.address_row spec.six_of) (stretches_of (λ number. number) conns.now.second)) }
{
    let mut rows = Seq::new(alloc);
    add_four(&mut rows, conns.first.pieces())?;
    add_six(&mut rows, conns.second.pieces())?;
    Ok(rows)
}

// Adds a row for each range of IPv4.
fn add_four(rows: &mut Seq<AddressRow>, pieces: &[Piece<V4, ConnSet>]) -> Result<(), NoMemory>
    ensures { OnOk result (rows.new
        ≡ rows.old ++ map (spec.address_row spec.four_of) (stretches_of (λ number. number) pieces.now)) }
{
    for piece in pieces {
        let range = Range {
            lo: piece.lo,
            hi: piece.hi,
        };
        add_row(rows, AddressSpan::Four(range), &piece.value)?;
    }
    Ok(())
}

// Adds a row for each range of IPv6.
fn add_six(rows: &mut Seq<AddressRow>, pieces: &[Piece<V6, ConnSet>]) -> Result<(), NoMemory>
    ensures { OnOk result (rows.new
        ≡ rows.old ++ map (spec.address_row spec.six_of) (stretches_of (λ number. number) pieces.now)) }
{
    for piece in pieces {
        let range = Range {
            lo: piece.lo,
            hi: piece.hi,
        };
        add_row(rows, AddressSpan::Six(range), &piece.value)?;
    }
    Ok(())
}

// Adds the row of a range, also where nothing passes there: the rows cover all addresses.
fn add_row(rows: &mut Seq<AddressRow>, span: AddressSpan, conns: &ConnSet) -> Result<(), NoMemory>
    ensures { OnOk result (rows.new ≡ rows.old ++ record { span = span; conns = conns.now } ∷ []) }
{
    let conns = conns.copy()?;
    rows.push(AddressRow { span, conns })
}
