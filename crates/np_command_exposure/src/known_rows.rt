//! The rows of sides that were found, for those that are the same.
ghost use Rattle.std.specs.Prelude.{◌≡◌, ◌<◌, IfOk, IfSome, OnOk, length, map};
ghost use Rattle.np_command_exposure.specs.steps.Known as spec;
ghost use Rattle.np_rules.specs.Prelude.{side_of};

use np_base::{NoMemory, Seq, Text};
use np_conns::print_conns;
use np_exposure::{ExposureRow, is_same_side, print_peer};
use np_kept::{Kept, OfSource};
use np_model::{Direction, Estate};
use std::alloc::Global;
use std::marker::Model;

// The texts that are kept have no more bytes, so that many large exposures do not fill the memory.
const MOST_BYTES: usize = 16 << 20;

/// The texts of a row of a side that do not name its workload.
#[derive(Drop)]
pub struct PeerRow {
    pub peer: Text,
    pub connections: Text,
}

/// The side of a pod, by its place, and the texts of its rows.
#[derive(Drop)]
pub(crate) struct KnownSide {
    pub pod: u32,
    pub direction: Direction,
    pub rows: Seq<PeerRow>,
}

impl<'a> OfSource<&'a Estate> for KnownSide {
    ghost use Rattle.np_command_exposure.specs.steps.Known.{IsKnown};

    ghost IsRight = { λ estate known. IsKnown estate.now known };
}

/// The texts of the rows of sides that were found. Most sides of a cluster are the same as an earlier one, and to find rows takes
/// far longer than to see that. Contracts see the lists of the estate.
pub(crate) struct KnownRows<'a> {
    kept: Kept<&'a Estate, KnownSide>,
}

// Written out, so that letting one go is one call.
impl<'a> Drop for KnownRows<'a> {
    fn drop(self) {
        let KnownRows { kept: _kept } = self;
    }
}

impl<'a> Model for KnownRows<'a> {
    ghost use Rattle.np_model.specs.declared.lists.EstateLists.{EstateLists};

    ghost Value = { EstateLists };

    ghost view = { λ k. k.kept.now };
}

impl<'a> KnownRows<'a> {
    /// None yet. It takes no memory.
    pub(crate) fn new(alloc: Global, estate: &'a Estate) -> KnownRows<'a>
        ensures { result ≡ estate.now }
    {
        KnownRows {
            kept: Kept::new(alloc, estate, MOST_BYTES),
        }
    }

    /// The rows of the side of a pod, where the last side of this mark is the same.
    pub(crate) fn find(&self, pod: u32, direction: Direction, mark: u64) -> Option<&[PeerRow]>
        requires { pod < length self.now.pods }
        ensures { IfSome result (λ rows. rows.now ≡ spec.peer_rows (side_of self.now pod direction)) }
    {
        let estate = self.kept.source();
        let known = self.kept.find(mark)?;
        if known.direction == direction && is_same_side(estate, known.pod, pod, direction) {
            Some(known.rows.items())
        } else {
            None
        }
    }

    /// Keeps the rows of the side of a pod under its mark, unless these are too long. Where they do not fit beside the others,
    /// the others are forgotten.
    pub(crate) fn keep(
        &mut self,
        pod: u32,
        direction: Direction,
        mark: u64,
        rows: Seq<PeerRow>,
    ) -> Result<(), NoMemory>
        requires pod { pod < length self.old.pods }
        requires rows { rows ≡ spec.peer_rows (side_of self.old pod direction) }
        ensures { OnOk result (self.new ≡ self.old) }
    {
        let bytes = bytes_of(rows.items());
        let known = KnownSide {
            pod,
            direction,
            rows,
        };
        self.kept.keep(mark, known, bytes)
    }
}

// About how much memory the texts take, with the room for each of them.
fn bytes_of(rows: &[PeerRow]) -> usize {
    let mut bytes = 0usize;
    for row in rows {
        let texts = row
            .peer
            .as_str()
            .len()
            .saturating_add(row.connections.as_str().len());
        bytes = bytes.saturating_add(texts).saturating_add(64);
    }
    bytes
}

/// The texts of rows.
pub(crate) fn peer_rows(alloc: Global, rows: &[ExposureRow]) -> Result<Seq<PeerRow>, NoMemory>
    ensures { IfOk result (λ made. made ≡ map spec.peer_row rows.now) }
{
    let mut made = Seq::new(alloc);
    for row in rows {
        made.push(peer_row(alloc, row)?)?;
    }
    Ok(made)
}

// The texts of a row.
fn peer_row(alloc: Global, row: &ExposureRow) -> Result<PeerRow, NoMemory>
    ensures { IfOk result (λ made. made ≡ spec.peer_row row.now) }
{
    Ok(PeerRow {
        peer: print_peer(alloc, row)?,
        connections: print_conns(alloc, &row.conns)?,
    })
}
