//! Packets between workloads.
ghost use Rattle.std.specs.Prelude.{◌≡◌, ◌<◌, false, All, IfOk, length};
ghost use Rattle.np_check.specs.Prelude.{AreSettled, counterexample_between, counterexample_in, first_given};
ghost use Rattle.np_check.specs.declared.counterexample.PlaceEnd.TheVariants.{Work};
ghost use Rattle.np_fold.specs.Prelude.{folding_of};
ghost use Rattle.np_kinds.specs.Prelude.{IsWorkload, is_alone};

use crate::checker::Checker;
use crate::claim::Claim;
use crate::counterexample::{Counterexample, PlaceEnd};
use np_addr::Family;
use np_base::NoMemory;
use np_fold::Workloads;
use std::collections::HashSet;

/// The kinds of workloads between which no packet breaks a statement, as far as they are known: pairs of the kind of a
/// source and that of a destination.
pub(crate) type Settled = HashSet<(u32, u32)>;

/// The first packet from a workload to some others that breaks a statement. What is found of two workloads holds of all of
/// their kinds, so it is asked once for two kinds.
pub(crate) fn first_to_works(
    checker: &mut Checker<'_>,
    claim: &Claim<'_>,
    source: u32,
    destinations: &[u32],
    settled: &mut Settled,
) -> Result<Option<Counterexample>, NoMemory>
    requires source { IsWorkload checker.old source }
    requires destinations { All (IsWorkload checker.old) destinations.now }
    requires settled { AreSettled checker.old claim.now.wanted claim.now.conns.now settled.old.keys }
    ensures counterexample { IfOk result (λ made. made ≡ first_given
        (λ destination. counterexample_between checker.old claim.now.wanted claim.now.conns.now (Work source) (Work destination))
        destinations.now) }
    ensures same { checker.new ≡ checker.old }
    ensures settled { AreSettled checker.new claim.now.wanted claim.now.conns.now settled.new.keys }
{
    for destination in destinations {
        let found = first_to_work(checker, claim, source, *destination, settled)?;
        if found.is_some() {
            return Ok(found);
        }
    }
    Ok(None)
}

// The first packet from a workload to another that breaks a statement, unless it is known that there is none: what passes
// not at all breaks no statement that denies, and is not kept.
fn first_to_work(
    checker: &mut Checker<'_>,
    claim: &Claim<'_>,
    source: u32,
    destination: u32,
    settled: &mut Settled,
) -> Result<Option<Counterexample>, NoMemory>
    requires source { IsWorkload checker.old source }
    requires destination { IsWorkload checker.old destination }
    requires settled { AreSettled checker.old claim.now.wanted claim.now.conns.now settled.old.keys }
    ensures counterexample { IfOk result (λ made. made
        ≡ counterexample_between checker.old claim.now.wanted claim.now.conns.now (Work source) (Work destination)) }
    ensures same { checker.new ≡ checker.old }
    ensures settled { AreSettled checker.new claim.now.wanted claim.now.conns.now settled.new.keys }
{
    let denied = claim.denies();
    if denied && checker.is_silent(source, destination) {
        return Ok(None);
    }
    let workloads = checker.folded().workloads();
    let kinds = (workloads.kind_of(source), workloads.kind_of(destination));
    if settled.contains(&kinds) {
        return Ok(None);
    }
    let found = first_between(checker, claim, source, destination)?;
    if found.is_none() && source != destination {
        settled.insert(kinds)?;
    }
    Ok(found)
}

// The first packet from a workload to another that breaks a statement, by family.
fn first_between(
    checker: &mut Checker<'_>,
    claim: &Claim<'_>,
    source: u32,
    destination: u32,
) -> Result<Option<Counterexample>, NoMemory>
    requires source { IsWorkload checker.old source }
    requires destination { IsWorkload checker.old destination }
    ensures counterexample { IfOk result (λ made. made
        ≡ counterexample_between checker.old claim.now.wanted claim.now.conns.now (Work source) (Work destination)) }
    ensures same { checker.new ≡ checker.old }
{
    let folded = checker.folded();
    if is_alone(folded.workloads(), source, destination) {
        return Ok(None);
    }
    for family in folded.estate().families() {
        let found = first_in(checker, claim, source, destination, *family)?;
        if found.is_some() {
            return Ok(found);
        }
    }
    Ok(None)
}

// Whether a workload of one pod meets itself.
fn is_alone(workloads: &Workloads, source: u32, destination: u32) -> bool
    requires { source < length workloads.now.workloads }
    ensures { result ≡ is_alone workloads.now source destination }
{
    source == destination && workloads.members(source).len() == 1
}

// The first packet of a family from a workload to another that breaks a statement.
fn first_in(
    checker: &mut Checker<'_>,
    claim: &Claim<'_>,
    source: u32,
    destination: u32,
    family: Family,
) -> Result<Option<Counterexample>, NoMemory>
    requires source { IsWorkload checker.old source }
    requires destination { IsWorkload checker.old destination }
    requires apart { is_alone (folding_of checker.old) source destination ≡ false }
    ensures counterexample { IfOk result (λ made. made
        ≡ counterexample_in checker.old claim.now.wanted claim.now.conns.now (Work source) (Work destination) family) }
    ensures same { checker.new ≡ checker.old }
{
    let passes = checker.passing(source, destination, family)?;
    let Some(spot) = claim.first_broken(&passes)? else {
        return Ok(None);
    };
    Ok(Some(Counterexample {
        source: PlaceEnd::Work(source),
        destination: PlaceEnd::Work(destination),
        family,
        spot,
    }))
}
