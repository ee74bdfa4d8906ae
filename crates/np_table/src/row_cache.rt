//! What is kept of the rows from the source at hand, so that the rules are asked once for each kind of destinations.
ghost use Rattle.std.specs.Prelude.{◌≡◌, ◌<◌, ◌≤◌, ◌+◌, [], IfOk, None, OnErr, OnOk, length, map, option_map};
ghost use Rattle.np_table.specs.RowCache as spec;

use crate::rows::{Row, RowKey};
use np_addr::Family;
use np_base::{Cells, NoMemory, Seq};
use np_conns::ConnSet;
use std::alloc::Global;
use std::marker::Model;

/// What a row of two workloads has besides its ends.
#[derive(Drop)]
pub struct CachedConns {
    pub family: Option<Family>,
    pub conns: ConnSet,
}

/// For each kind of workloads, by its number, what the rows from one source to a destination of that kind have besides
/// their ends, where it is known. Contracts see it as the list of these.
#[derive(Drop)]
pub struct RowCache {
    by_kind: Vec<Option<Seq<CachedConns>>>,
}

impl Model for RowCache {
    ghost use Rattle.std.specs.Prelude.{List, Option};
    ghost use Rattle.np_table.specs.declared.row_cache.CachedConns.{CachedConns};

    ghost Value = { List (Option (List CachedConns)) };

    ghost view = { λ k. k.by_kind.items };
}

impl RowCache {
    /// Nothing is kept. It takes no memory.
    pub fn nothing(alloc: Global) -> RowCache
        ensures { result ≡ [] }
    {
        RowCache {
            by_kind: Vec::new(alloc),
        }
    }

    /// The rows of these ends by what is kept for a kind. `None` exactly where nothing is.
    pub fn rows(&self, alloc: Global, kind: u32, key: &RowKey) -> Result<Option<Seq<Row>>, NoMemory>
        ensures { IfOk result (λ made. made ≡ option_map (map (spec.row_with key.now)) (spec.cached_at self.now kind)) }
    {
        match self.by_kind.get(kind as usize) {
            Some(Some(conns)) => Ok(Some(rows_with(alloc, key, conns.items())?)),
            _ => Ok(None),
        }
    }

    /// Keeps for a kind what rows have besides their ends. On `NoMemory` the same is kept as before.
    pub fn keep(
        &mut self,
        alloc: Global,
        kind: u32,
        kinds: u32,
        rows: &[Row],
    ) -> Result<(), NoMemory>
        requires few { length self.old ≤ kinds }
        requires kind { kind < kinds }
        ensures few { length self.new ≤ kinds }
        ensures also { OnOk result (spec.CachesAlso self.old self.new kind (map spec.cached_of rows.now)) }
        ensures count { OnOk result (spec.cached_at self.old kind ≡ None →
            spec.cached_count self.new ≡ spec.cached_count self.old + 1) }
        ensures err { OnErr result (spec.CachesTheSame self.old self.new) }
    {
        let conns = conns_of_rows(alloc, rows)?;
        make_places(&mut self.by_kind, kinds)?;
        self.by_kind[kind as usize] = Some(conns);
        Ok(())
    }
}

// Makes a place for each kind.
fn make_places(by_kind: &mut Vec<Option<Seq<CachedConns>>>, kinds: u32) -> Result<(), NoMemory>
    requires { length by_kind.old.items ≤ kinds }
    ensures few { length by_kind.new.items ≤ kinds }
    ensures all { OnOk result (length by_kind.new.items ≡ kinds) }
    ensures same { spec.CachesTheSame by_kind.old.items by_kind.new.items }
{
    while by_kind.len() < kinds as usize {
        by_kind.push(None)?;
    }
    Ok(())
}

// The rows of these ends by what is kept.
fn rows_with(alloc: Global, key: &RowKey, conns: &[CachedConns]) -> Result<Seq<Row>, NoMemory>
    ensures { IfOk result (λ made. made ≡ map (spec.row_with key.now) conns.now) }
{
    let mut rows = Seq::new(alloc);
    for one in conns {
        rows.push(Row {
            key: *key,
            family: one.family,
            conns: one.conns.copy()?,
        })?;
    }
    Ok(rows)
}

// What rows have besides their ends.
fn conns_of_rows(alloc: Global, rows: &[Row]) -> Result<Seq<CachedConns>, NoMemory>
    ensures { IfOk result (λ made. made ≡ map spec.cached_of rows.now) }
{
    let mut made = Seq::new(alloc);
    for row in rows {
        made.push(CachedConns {
            family: row.family,
            conns: row.conns.copy()?,
        })?;
    }
    Ok(made)
}
