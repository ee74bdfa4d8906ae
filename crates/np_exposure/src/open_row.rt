//! Rows as the walk makes them.
ghost use Rattle.std.specs.Prelude.{◌≡◌, ◌≢◌, [], ◌∷◌, ◌++◌, map, reverse, IfOk, MatchBool, OnOk};
ghost use Rattle.np_exposure.specs.Tree.{IsJoined, with_first};
ghost use Rattle.np_exposure.specs.declared.exposure_row.ExposureRow.{ExposureRow};

use crate::exposure_row::ExposureRow;
use crate::sided_requirement::SidedRequirement;
use np_base::{Cells, NoMemory, Seq, TryCopy};
use np_conns::ConnSet;
use np_rules::{Same, are_same};
use std::alloc::Global;
use std::marker::Model;

/// A requirement that is lent.
#[derive(Drop)]
struct Lent<'a> {
    requirement: &'a SidedRequirement,
}

impl<'a> Model for Lent<'a> {
    ghost use Rattle.np_exposure.specs.declared.sided_requirement.SidedRequirement.{SidedRequirement};

    ghost Value = { SidedRequirement };

    ghost view = { λ lent. lent.requirement.now };
}

impl<'a> Same for Lent<'a> {
    fn is_same(&self, other: &Lent<'a>) -> bool {
        self.requirement.is_same(other.requirement)
    }
}

/// A row whose requirements are lent, the last one first, so that one is put before all others at once.
#[derive(Drop)]
pub(crate) struct OpenRow<'a> {
    backwards: Vec<Lent<'a>>,
    conns: ConnSet,
}

impl<'a> Model for OpenRow<'a> {
    ghost use Rattle.std.specs.Prelude.{reverse};
    ghost use Rattle.np_exposure.specs.declared.exposure_row.ExposureRow.{ExposureRow};

    ghost Value = { ExposureRow };

    ghost view = { λ r. record { requirements = reverse r.backwards.items; conns = r.conns } };
}

impl<'a> Same for OpenRow<'a> {
    fn is_same(&self, other: &OpenRow<'a>) -> bool {
        are_same(&self.backwards, &other.backwards) && self.conns.same(&other.conns)
    }
}

impl<'a> OpenRow<'a> {
    /// The row without requirements, alone.
    pub(crate) fn alone(alloc: Global, conns: ConnSet) -> Result<Vec<OpenRow<'a>>, NoMemory>
        ensures { IfOk result (λ made. made.items ≡ record { requirements = []; conns = conns } ∷ []) }
    {
        let mut rows = Seq::new(alloc);
        rows.push(OpenRow {
            backwards: Vec::new(alloc),
            conns,
        })?;
        Ok(rows.into_vec())
    }

    // Puts a requirement before all others.
    fn put_first(&mut self, requirement: &'a SidedRequirement) -> Result<(), NoMemory>
        ensures { OnOk result (self.new ≡ with_first requirement.now self.old) }
    {
        self.backwards.push(Lent { requirement })?;
        Ok(())
    }

    // Puts the row last, with requirements of its own.
    fn finish(self, rows: &mut Seq<ExposureRow>) -> Result<(), NoMemory>
        ensures { OnOk result (rows.new ≡ rows.old ++ self.entry ∷ []) }
    {
        let requirements = in_order(rows.allocator(), self.backwards)?;
        rows.push(ExposureRow {
            requirements,
            conns: self.conns,
        })
    }
}

// Copies of requirements that stand backwards.
fn in_order(alloc: Global, lent: Vec<Lent<'_>>) -> Result<Seq<SidedRequirement>, NoMemory>
    ensures { IfOk result (λ made. made ≡ reverse lent.entry.items) }
{
    let mut backwards = lent;
    let mut requirements = Seq::new(alloc);
    while let Some(lent) = backwards.pop() {
        requirements.push(lent.requirement.try_copy(alloc)?)?;
    }
    Ok(requirements)
}

/// The rows of a requirement, from those where it is met and those where it is not. Equal lists are not kept apart.
pub(crate) fn joined<'a>(
    requirement: &'a SidedRequirement,
    met: Vec<OpenRow<'a>>,
    unmet: Vec<OpenRow<'a>>,
) -> Result<Vec<OpenRow<'a>>, NoMemory>
    ensures { IfOk result (λ made. IsJoined requirement.now met.entry.items unmet.entry.items made.items) }
{
    if are_same(&met, &unmet) {
        return Ok(met);
    }
    let mut rows = all_with_first(requirement, met)?;
    let mut others = unmet;
    rows.append(&mut others)?;
    Ok(rows)
}

// The rows with a requirement before all others.
fn all_with_first<'a>(
    requirement: &'a SidedRequirement,
    rows: Vec<OpenRow<'a>>,
) -> Result<Vec<OpenRow<'a>>, NoMemory>
    ensures { IfOk result (λ made. made.items ≡ map (with_first requirement.now) rows.entry.items) }
{
    let mut made = Vec::with_capacity(*rows.allocator(), rows.len())?;
    for mut row in rows {
        row.put_first(requirement)?;
        made.push(row)?;
    }
    Ok(made)
}

/// The rows with requirements of their own.
pub(crate) fn finished(alloc: Global, rows: Vec<OpenRow<'_>>) -> Result<Seq<ExposureRow>, NoMemory>
    ensures { IfOk result (λ made. made ≡ rows.entry.items) }
{
    let mut made = Seq::new(alloc);
    for row in rows {
        row.finish(&mut made)?;
    }
    Ok(made)
}
