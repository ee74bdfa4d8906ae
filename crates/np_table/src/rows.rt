//! The rows of the table.

use np_addr::Family;
use np_base::{Range, V4, V6};
use np_conns::ConnSet;

/// A range of addresses of one family, ends included.
#[derive(Clone, Copy, PartialEq, Eq)]
pub enum AddressSpan {
    Four(Range<V4>),
    Six(Range<V6>),
}

/// An end of a row: a workload by its number, a range of addresses, or the controller of Ingresses.
#[derive(Clone, Copy, PartialEq, Eq)]
pub enum RowEnd {
    Work(u32),
    Span(AddressSpan),
    Controller,
}

/// The two ends of a row.
#[derive(Clone, Copy, PartialEq, Eq)]
pub struct RowKey {
    pub source: RowEnd,
    pub destination: RowEnd,
}

/// A row: what its source may send to its destination. `family` is there exactly where the row is of one family of two,
/// since the other differs.
#[derive(Drop)]
pub struct Row {
    pub key: RowKey,
    pub family: Option<Family>,
    pub conns: ConnSet,
}

/// A range of addresses, and what passes between each of them and a workload.
#[derive(Drop)]
pub struct AddressRow {
    pub span: AddressSpan,
    pub conns: ConnSet,
}
