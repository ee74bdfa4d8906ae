//! The rules of ranges of addresses.
ghost use Rattle.std.specs.Prelude.{◌≡◌, ◌++◌, All, IfOk, OnOk};
ghost use Rattle.np_flatten.specs.Flat as spec;
ghost use Rattle.np_flatten.specs.Prelude.{IsFilled};

use crate::policy_parts::{is_nothing, ports_of};
use np_addr::{AddrSet, prefixes};
use np_base::{Beside, Cells, NoMemory, Seq};
use np_model::{NetPeer, NetRule};
use np_sets::IntervalSet;
use np_table::{AddressRow, AddressSpan};
use std::alloc::Global;

/// Adds the rules of ranges of addresses: one for each at which something passes.
pub(crate) fn add_rules_of_addresses(
    alloc: Global,
    rules: &mut Seq<NetRule>,
    rows: &[AddressRow],
) -> Result<(), NoMemory>
    requires { All (λ row. IsFilled row.span) rows.now }
    ensures { OnOk result (rules.new ≡ rules.old ++ spec.rules_of_addresses rows.now) }
{
    for row in rows {
        add_rule_of_addresses(alloc, rules, row)?;
    }
    Ok(())
}

// Adds the rule of a range of addresses, where something passes there.
fn add_rule_of_addresses(
    alloc: Global,
    rules: &mut Seq<NetRule>,
    row: &AddressRow,
) -> Result<(), NoMemory>
    requires { IsFilled row.now.span }
    ensures { OnOk result (rules.new ≡ rules.old ++ spec.rule_if (spec.blocks_of_span row.now.span) row.now.conns) }
{
    if is_nothing(&row.conns) {
        return Ok(());
    }
    let peers = blocks_of_span(alloc, row.span)?;
    let ports = ports_of(alloc, &row.conns)?;
    rules.push(NetRule { peers, ports })
}

// The addresses of a range as peers: the blocks of the right prefix list.
fn blocks_of_span(alloc: Global, span: AddressSpan) -> Result<Seq<NetPeer>, NoMemory>
    requires { IsFilled span }
    ensures { IfOk result (λ made. made ≡ spec.blocks_of_span span) }
{
    let set = set_of_span(alloc, span)?;
    let mut peers = Seq::new(alloc);
    for cidr in prefixes(alloc, &set)?.into_vec() {
        let excepts = Seq::new(alloc);
        peers.push(NetPeer::Block { cidr, excepts })?;
    }
    Ok(peers)
}

// The addresses of a range as a set.
fn set_of_span(alloc: Global, span: AddressSpan) -> Result<AddrSet, NoMemory>
    requires { IsFilled span }
    ensures { IfOk result (λ made. made ≡ spec.ranges_of_span span) }
{
    match span {
        AddressSpan::Four(range) => Ok(Beside {
            first: IntervalSet::of_range(alloc, range.lo, range.hi)?,
            second: IntervalSet::nothing(alloc)?,
        }),
        AddressSpan::Six(range) => Ok(Beside {
            first: IntervalSet::nothing(alloc)?,
            second: IntervalSet::of_range(alloc, range.lo, range.hi)?,
        }),
    }
}
