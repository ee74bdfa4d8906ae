//! Whether the statements of a cluster hold.
ghost use Rattle.std.specs.Prelude.{◌≡◌, false, true, All, IfOk};
ghost use Rattle.np_addr.specs.declared.address.Family.{Family as SpecFamily};
ghost use Rattle.np_check.specs.Counterexamples.{counterexample_of};
ghost use Rattle.np_conns.specs.declared.port_spot.PortSpot.{PortSpot};
ghost use Rattle.np_fold.specs.Prelude.{folding_of};
ghost use Rattle.np_table.specs.Prelude.{address_rows, estate_table};
ghost use Rattle.np_conns.specs.Prelude.{conns_of};
ghost use Rattle.np_kinds.specs.Prelude.{IsWorkload, is_alone, pair_allows};

use crate::addresses::first_from_addresses;
use crate::checking::first_from_works;
use crate::claim::Claim;
use crate::counterexample::Counterexample;
use crate::statement::Statement;
use np_addr::Family;
use np_base::NoMemory;
use np_conns::ConnSet;
use np_fold::Folded;
use np_kinds::{KindReach, Sides};
use np_model::Direction;
use np_table::{KnownAddresses, SharedRows, set_by_kinds};
use std::alloc::Global;
use std::marker::Model;

// From so many pairs a workload on it is worth it to find out first which kinds may send anything to which.
const PAIRS_PER_WORKLOAD: u64 = 50;

/// A cluster of which statements are checked, one after the other. The rules of a kind of workloads are found when they are
/// first asked for, once as it sends and once as it receives, and kept for the statements to come. Which kinds may send
/// anything to which is found once many pairs were asked for. Contracts see the lists of the cluster.
pub struct Checker<'a> {
    alloc: Global,
    sides: Sides<'a>,
    addresses: KnownAddresses<'a>,
    // How many pairs of workloads were asked for.
    pairs: u64,
    reach: Option<KindReach>,
}

// Written out, so that letting one go is one call.
impl<'a> Drop for Checker<'a> {
    fn drop(self) {
        let Checker {
            alloc: _alloc,
            sides: _sides,
            addresses: _addresses,
            pairs: _pairs,
            reach: _reach,
        } = self;
    }
}

impl<'a> Model for Checker<'a> {
    ghost use Rattle.np_model.specs.declared.lists.EstateLists.{EstateLists};

    ghost Value = { EstateLists };

    ghost view = { λ c. c.sides.lists };

    ghost use Rattle.std.specs.Prelude.{◌≡◌, IfSome};
    ghost use Rattle.np_kinds.specs.Kinds.{IsKindReach};

    ghost invariant = { λ c. (c.addresses ≡ c.sides.lists) × IfSome c.reach (IsKindReach c.sides.lists) };
}

impl<'a> Checker<'a> {
    /// A cluster of which no rules were asked for. It takes no memory.
    pub fn new(alloc: Global, folded: &'a Folded) -> Checker<'a>
        ensures { result ≡ folded.now }
    {
        Checker {
            alloc,
            sides: Sides::new(alloc, folded),
            addresses: KnownAddresses::new(alloc, folded),
            pairs: 0,
            reach: None,
        }
    }

    /// Whether a statement holds: `None` exactly where no packet breaks it, and else the first that does. Packets are
    /// ordered by source, destination, family, protocol (TCP, UDP, SCTP) and port: workloads by number before addresses,
    /// IPv4 before IPv6, addresses by number. Between workloads the families are those of the list; no packet is of a
    /// workload of one pod with itself. No address is asked by itself: the rules give what passes with whole ranges of
    /// them.
    pub fn check(&mut self, statement: &Statement) -> Result<Option<Counterexample>, NoMemory>
        requires sources { All (IsWorkload self.old) statement.now.question.source.works }
        requires destinations { All (IsWorkload self.old) statement.now.question.destination.works }
        ensures counterexample { IfOk result (λ made. made ≡ counterexample_of self.old statement.now.question) }
        ensures same { self.new ≡ self.old }
    {
        let question = &statement.question;
        let sources = question.source.works.items();
        let destinations = question.destination.works.items();
        self.expect(sources.len() as u64, destinations.len() as u64)?;
        let claim = Claim {
            wanted: question.wanted,
            conns: &question.conns,
        };
        let found = first_from_works(self, &claim, sources, &question.destination)?;
        if found.is_some() {
            return Ok(found);
        }
        first_from_addresses(self, &claim, &question.source.block, destinations)
    }

    // Counts the pairs of a statement, and finds out which kinds may send anything to which once they are many.
    fn expect(&mut self, sources: u64, destinations: u64) -> Result<(), NoMemory>
        ensures { self.new ≡ self.old }
    {
        let pairs = sources.saturating_mul(destinations);
        self.pairs = self.pairs.saturating_add(pairs);
        let folded = self.sides.folded();
        let few = PAIRS_PER_WORKLOAD * u64::from(folded.workloads().count());
        if self.reach.is_none() && self.pairs > few {
            self.reach = Some(KindReach::of(self.alloc, folded)?);
        }
        Ok(())
    }

    /// Whether it is known that nothing passes from a workload to another.
    pub(crate) fn is_silent(&self, source: u32, destination: u32) -> bool
        requires source { IsWorkload self.now source }
        requires destination { IsWorkload self.now destination }
        ensures { result ≡ true → (family : SpecFamily) (spot : PortSpot) →
            pair_allows self.now (folding_of self.now) source destination family spot ≡ false }
    {
        match &self.reach {
            Some(reach) => reach.is_silent(self.sides.folded(), source, destination),
            None => false,
        }
    }

    /// Where the memory of what is found comes from.
    pub(crate) fn alloc(&self) -> Global {
        self.alloc
    }

    /// The cluster.
    pub(crate) fn folded(&self) -> &'a Folded
        ensures { result.now ≡ self.now }
    {
        self.sides.folded()
    }

    /// What passes between a workload and each address, which is found unless it is known for a pod that stands for the workload.
    pub(crate) fn find_addresses(
        &mut self,
        work: u32,
        direction: Direction,
    ) -> Result<SharedRows, NoMemory>
        requires { IsWorkload self.old work }
        ensures rows { IfOk result (λ made. made ≡ address_rows (estate_table self.old) work direction) }
        ensures same { self.new ≡ self.old }
    {
        self.addresses.rows_of(&mut self.sides, work, direction)
    }

    /// The protocols and ports that pass from a workload to another in a family, by the rules of their kinds. It is right of a
    /// workload with itself, too.
    pub(crate) fn passing(
        &mut self,
        source: u32,
        destination: u32,
        family: Family,
    ) -> Result<ConnSet, NoMemory>
        requires source { IsWorkload self.old source }
        requires destination { IsWorkload self.old destination }
        requires apart { is_alone (folding_of self.old) source destination ≡ false }
        ensures set { IfOk result (λ made. made
            ≡ conns_of (pair_allows self.old (folding_of self.old) source destination family)) }
        ensures same { self.new ≡ self.old }
    {
        set_by_kinds(&mut self.sides, source, destination, family)
    }
}
