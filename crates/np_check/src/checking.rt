//! Packets from workloads.
ghost use Rattle.std.specs.Prelude.{◌≡◌, All, IfOk};
ghost use Rattle.np_check.specs.Prelude.{AreSettled, counterexample_from, first_given};
ghost use Rattle.np_check.specs.declared.counterexample.PlaceEnd.TheVariants.{Work};
ghost use Rattle.np_kinds.specs.Prelude.{IsWorkload};

use crate::addresses::first_to_addresses;
use crate::checker::Checker;
use crate::claim::Claim;
use crate::counterexample::Counterexample;
use crate::pairs::{Settled, first_to_works};
use crate::question::Ends;
use np_base::NoMemory;
use std::collections::HashSet;

/// The first packet from some workloads that breaks a statement, by source.
pub(crate) fn first_from_works(
    checker: &mut Checker<'_>,
    claim: &Claim<'_>,
    sources: &[u32],
    ends: &Ends,
) -> Result<Option<Counterexample>, NoMemory>
    requires sources { All (IsWorkload checker.old) sources.now }
    requires destinations { All (IsWorkload checker.old) ends.now.works }
    ensures counterexample { IfOk result (λ made. made ≡ first_given
        (λ source. counterexample_from checker.old claim.now.wanted claim.now.conns.now ends.now (Work source)) sources.now) }
    ensures same { checker.new ≡ checker.old }
{
    let mut settled = HashSet::new(checker.alloc());
    for source in sources {
        let found = first_from_work(checker, claim, *source, ends, &mut settled)?;
        if found.is_some() {
            return Ok(found);
        }
    }
    Ok(None)
}

// The first packet from a workload that breaks a statement, by destination.
fn first_from_work(
    checker: &mut Checker<'_>,
    claim: &Claim<'_>,
    source: u32,
    ends: &Ends,
    settled: &mut Settled,
) -> Result<Option<Counterexample>, NoMemory>
    requires source { IsWorkload checker.old source }
    requires destinations { All (IsWorkload checker.old) ends.now.works }
    requires settled { AreSettled checker.old claim.now.wanted claim.now.conns.now settled.old.keys }
    ensures counterexample { IfOk result (λ made.
        made ≡ counterexample_from checker.old claim.now.wanted claim.now.conns.now ends.now (Work source)) }
    ensures same { checker.new ≡ checker.old }
    ensures settled { AreSettled checker.new claim.now.wanted claim.now.conns.now settled.new.keys }
{
    let destinations = ends.works.items();
    let found = first_to_works(checker, claim, source, destinations, settled)?;
    if found.is_some() {
        return Ok(found);
    }
    first_to_addresses(checker, claim, source, &ends.block)
}
