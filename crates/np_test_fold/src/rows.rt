//! What passes between the workloads of the list, and between a workload and all addresses.
ghost use Rattle.std.specs.Prelude.{◌≡◌};
ghost use Rattle.np_kinds.specs.Prelude.{number_of_workloads};

use np_addr::Family;
use np_base::NoMemory;
use np_conns::{ConnSet, print_conns};
use np_fold::{Folded, Workloads};
use np_model::Direction;
use np_report::{Report, row_text};
use np_table::{AddressRow, Row, address_rows, pair_rows, pair_set};
use std::alloc::Global;

/// What passes from the first workload to the second.
pub static PAIR: &str = "TCP 80-90; UDP 53";

/// Whether what passes from the first workload to the second in IPv4 is right.
pub fn is_pair_set_right(alloc: Global, folded: &Folded) -> Result<bool, NoMemory>
    requires { number_of_workloads folded.now ≡ 2 }
{
    match pair_set(alloc, folded, 0, 1, Family::Four)? {
        Some(conns) => are_conns(alloc, &conns, PAIR),
        None => Ok(false),
    }
}

/// Whether these two have the one row that they should.
pub fn are_pair_rows_right(alloc: Global, folded: &Folded) -> Result<bool, NoMemory>
    requires { number_of_workloads folded.now ≡ 2 }
{
    let rows = pair_rows(alloc, folded, 0, 1)?;
    match rows.items() {
        [row] => is_row_right(alloc, folded.workloads(), row),
        _ => Ok(false),
    }
}

// Whether the texts of the row are right.
fn is_row_right(alloc: Global, workloads: &Workloads, row: &Row) -> Result<bool, NoMemory> {
    let texts = row_text(alloc, workloads, row, Report::One)?;
    let is_source = texts.source.as_str() == "default/c[Pod]";
    let is_destination = texts.destination.as_str() == "default/db[StatefulSet]";
    Ok(is_source && is_destination && texts.connections.as_str() == PAIR)
}

/// Whether the rows of the first workload with all addresses are right, as it sends.
pub fn are_address_rows_right(alloc: Global, folded: &Folded) -> Result<bool, NoMemory>
    requires { number_of_workloads folded.now ≡ 2 }
{
    let rows = address_rows(alloc, folded, 0, Direction::Egress)?;
    are_ranges_right(alloc, rows.items())
}

/// Whether these are the rows of two ranges of IPv4 beside the block, of the block between them, and of all of IPv6.
pub fn are_ranges_right(alloc: Global, rows: &[AddressRow]) -> Result<bool, NoMemory> {
    let [below, block, above, six] = rows else {
        return Ok(false);
    };
    let all = "All Connections";
    let without_telnet = "TCP 1-21,23-65535; UDP 1-65535; SCTP 1-65535";
    Ok(
        are_conns(alloc, &below.conns, all)?
            && are_conns(alloc, &block.conns, without_telnet)?
            && are_conns(alloc, &above.conns, all)?
            && are_conns(alloc, &six.conns, all)?,
    )
}

/// Whether connections have this text.
pub fn are_conns(alloc: Global, conns: &ConnSet, wanted: &str) -> Result<bool, NoMemory> {
    let text = print_conns(alloc, conns)?;
    Ok(text.as_str() == wanted)
}
