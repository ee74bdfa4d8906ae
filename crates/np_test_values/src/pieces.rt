//! Connections at the addresses of both families, of a text. What is made of more of them stands in transcripts/sets.txt.

use crate::sets::Written;
use np_addr::AddrSet;
use np_base::{Beside, V4, V6};
use np_conns::ConnSet;
use np_pieces::Pieces;
use std::alloc::Global;
use std::process::Abort;

/// Connections at the addresses of both families.
pub type AddrConns = Beside<Pieces<V4, ConnSet>, Pieces<V6, ConnSet>>;

// The connections of one text at the lower half of the IPv4 addresses, and those of the other at the rest.
fn halves(rt: &impl Abort, alloc: Global, lower: &str, upper: &str) -> Pieces<V4, ConnSet> {
    let half = AddrSet::read(rt, alloc, "0.0.0.0/1");
    let lower = ConnSet::read(rt, alloc, lower);
    let upper = ConnSet::read(rt, alloc, upper);
    Pieces::over(alloc, &half.first, lower, upper).expect(rt, "two pieces")
}

// The connections before ` / ` at the lower half of the IPv4 addresses and those behind it at all others, or the same at all.
impl Written for AddrConns {
    fn read<A: Abort>(rt: &A, alloc: Global, text: &str) -> AddrConns {
        let (lower, others) = text.split_once(" / ").unwrap_or((text, text));
        let first = halves(rt, alloc, lower, others);
        let others = ConnSet::read(rt, alloc, others);
        let second = Pieces::constant(alloc, others).expect(rt, "one piece");
        Beside { first, second }
    }
}
