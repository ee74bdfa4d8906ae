//! What was found to pass between pods and addresses.
ghost use Rattle.std.specs.Prelude.{◌≡◌, IfOk, IfSome};
ghost use Rattle.np_kinds.specs.Prelude.{IsWorkload};
ghost use Rattle.np_rules.specs.Prelude.{side_of};
ghost use Rattle.np_table.specs.Prelude.{address_rows, estate_table, rows_of_addresses, side_with_address};

use crate::rows::AddressRow;
use crate::rows_of_addresses::{address_rows_by_kind, pod_for_addresses};
use crate::shared_rows::SharedRows;
use np_base::NoMemory;
use np_fold::Folded;
use np_kept::{Kept, OfSource};
use np_kinds::{Sides, bytes_of_set};
use np_model::Direction;
use std::alloc::Global;
use std::marker::Model;

// The rows that are kept take no more bytes, so that those of many pods do not fill the memory.
const MOST_BYTES: usize = 32 << 20;

/// A pod, by its place in the estate, and a direction, and what passes there between it and each address.
#[derive(Drop)]
pub(crate) struct PodAddresses {
    pub pod: u32,
    pub direction: Direction,
    pub rows: SharedRows,
}

impl<'a> OfSource<&'a Folded> for PodAddresses {
    ghost use Rattle.std.specs.Prelude.{◌≡◌};
    ghost use Rattle.np_rules.specs.Prelude.{side_of};
    ghost use Rattle.np_table.specs.PairRules.{side_with_address};
    ghost use Rattle.np_table.specs.Rows.{rows_of_addresses};

    ghost IsRight = { λ folded known.
        known.rows ≡ rows_of_addresses (side_with_address (side_of folded.now known.pod known.direction)) };
}

/// What was found to pass between pods and addresses, for those who ask for it again: to find it takes far longer than to look at
/// it again. Contracts see the lists of the estate.
pub struct KnownAddresses<'a> {
    alloc: Global,
    kept: Kept<&'a Folded, PodAddresses>,
}

// Written out, so that letting one go is one call.
impl<'a> Drop for KnownAddresses<'a> {
    fn drop(self) {
        let KnownAddresses {
            alloc: _alloc,
            kept: _kept,
        } = self;
    }
}

impl<'a> Model for KnownAddresses<'a> {
    ghost use Rattle.np_model.specs.declared.lists.EstateLists.{EstateLists};

    ghost Value = { EstateLists };

    ghost view = { λ k. k.kept.now };
}

impl<'a> KnownAddresses<'a> {
    /// Nothing yet. It takes no memory.
    pub fn new(alloc: Global, folded: &'a Folded) -> KnownAddresses<'a>
        ensures { result ≡ folded.now }
    {
        KnownAddresses {
            alloc,
            kept: Kept::new(alloc, folded, MOST_BYTES),
        }
    }

    /// Where the memory of what is made comes from.
    pub(crate) fn alloc(&self) -> Global {
        self.alloc
    }

    /// What passes between a workload and each address, as `address_rows` has it. It is found once, while there is room, for all
    /// workloads of which one pod stands for each (`pod_for_addresses`); where it takes too much memory to be kept, it is found
    /// each time. `NoMemory` comes where there is none to find it, or to keep it: what was kept stays right.
    pub fn rows_of(
        &mut self,
        sides: &mut Sides<'_>,
        workload: u32,
        direction: Direction,
    ) -> Result<SharedRows, NoMemory>
        requires estate { self.old ≡ sides.old.lists }
        requires workload { IsWorkload sides.old.lists workload }
        ensures rows { IfOk result (λ made. made ≡ address_rows (estate_table sides.old.lists) workload direction) }
        ensures lists { sides.new.lists ≡ sides.old.lists }
        ensures same { self.new ≡ self.old }
    {
        let pod = pod_for_addresses(sides, workload, direction)?;
        if let Some(rows) = self.rows(pod, direction) {
            return rows.share();
        }
        let found = address_rows_by_kind(self.alloc, sides, workload, direction)?;
        let rows = SharedRows::of(self.alloc, found)?;
        self.keep(pod, direction, rows.share()?)?;
        Ok(rows)
    }

    // What passes between a pod and each address, where it is known.
    fn rows(&self, pod: u32, direction: Direction) -> Option<&SharedRows>
        ensures { IfSome result (λ rows. rows.now ≡ rows_of_addresses (side_with_address (side_of self.now pod direction))) }
    {
        let known = self.kept.find(key_of(pod, direction))?;
        if known.pod == pod && known.direction == direction {
            Some(&known.rows)
        } else {
            None
        }
    }

    // Keeps what passes between a pod and each address, unless it takes too much memory. Where it does not fit beside the rest, the
    // rest is forgotten.
    fn keep(&mut self, pod: u32, direction: Direction, rows: SharedRows) -> Result<(), NoMemory>
        requires { rows ≡ rows_of_addresses (side_with_address (side_of self.old pod direction)) }
        ensures { self.new ≡ self.old }
    {
        let bytes = bytes_of(rows.items());
        let known = PodAddresses {
            pod,
            direction,
            rows,
        };
        self.kept.keep(key_of(pod, direction), known, bytes)
    }
}

// The key of a pod in a direction.
fn key_of(pod: u32, direction: Direction) -> u64 {
    let pod = u64::from(pod) << 1;
    match direction {
        Direction::Ingress => pod,
        Direction::Egress => pod | 1,
    }
}

// About how much memory the rows take.
fn bytes_of(rows: &[AddressRow]) -> usize {
    let mut bytes = 64usize;
    for row in rows {
        bytes = bytes.saturating_add(bytes_of_set(&row.conns));
    }
    bytes
}
