//! What passes between two workloads, and between workloads and all addresses, by rules that are found once.
ghost use Rattle.std.specs.Prelude.{◌≡◌, ◌≢◌, IfOk, None, Some, if◌then◌else◌};
ghost use Rattle.np_fold.specs.Prelude.{folding_of};
ghost use Rattle.np_flatten.specs.Faults as spec;
ghost use Rattle.np_kinds.specs.Prelude.{IsWorkload, is_alone};
ghost use Rattle.np_table.specs.Prelude.{address_rows, estate_table};

use np_addr::Family;
use np_base::{Cells, NoMemory};
use np_conns::ConnSet;
use np_fold::Folded;
use np_kinds::{KindReach, Sides};
use np_model::Direction;
use np_table::{KnownAddresses, SharedRows, pair_set, set_by_kinds};
use std::alloc::Global;
use std::marker::Model;

/// For each kind of workloads of an estate the rules of the pod that stands for it, as it sends and as it receives, which are
/// found when they are first asked for, and which kinds these let through at all. What they give between two workloads is made
/// when it is asked for; what one side allows with a far pod, and what passes between it and each address, is found once for all
/// sides that are the same. Contracts see the lists of the estate.
pub(crate) struct Passing<'a> {
    alloc: Global,
    sides: Sides<'a>,
    addresses: KnownAddresses<'a>,
    reach: KindReach,
}

// Written out, so that letting one go is one call.
impl<'a> Drop for Passing<'a> {
    fn drop(self) {
        let Passing {
            alloc: _alloc,
            sides: _sides,
            addresses: _addresses,
            reach: _reach,
        } = self;
    }
}

impl<'a> Model for Passing<'a> {
    ghost use Rattle.std.specs.Prelude.{◌≡◌};
    ghost use Rattle.np_model.specs.declared.lists.EstateLists.{EstateLists};
    ghost use Rattle.np_kinds.specs.Kinds.{IsKindReach};

    ghost Value = { EstateLists };

    ghost view = { λ p. p.sides.lists };

    ghost invariant = { λ p. (p.addresses ≡ p.sides.lists) × IsKindReach p.sides.lists p.reach };
}

impl<'a> Passing<'a> {
    /// No rules are known, but which kinds may send anything to which.
    pub(crate) fn of(alloc: Global, folded: &'a Folded) -> Result<Passing<'a>, NoMemory>
        ensures { IfOk result (λ made. made ≡ folded.now) }
    {
        let reach = KindReach::of(alloc, folded)?;
        Ok(Passing {
            alloc,
            sides: Sides::new(alloc, folded),
            addresses: KnownAddresses::new(alloc, folded),
            reach,
        })
    }

    /// Where the memory of what is made comes from.
    pub(crate) fn alloc(&self) -> Global {
        self.alloc
    }

    /// The estate with its workloads.
    pub(crate) fn folded(&self) -> &'a Folded
        ensures { result.now ≡ self.now }
    {
        self.sides.folded()
    }

    /// What passes from a workload to another in packets of the first family of the list.
    pub(crate) fn between(&mut self, source: u32, destination: u32) -> Result<ConnSet, NoMemory>
        requires source { IsWorkload self.old source }
        requires destination { IsWorkload self.old destination }
        requires apart { source ≢ destination }
        ensures set { IfOk result (λ made. made ≡ spec.set_of self.old source destination) }
        ensures same { self.new ≡ self.old }
    {
        let folded = self.folded();
        if self.reach.is_silent(folded, source, destination) {
            let nothing = ConnSet::nothing(self.alloc)?;
            return Ok(nothing);
        }
        set_by_kinds(&mut self.sides, source, destination, first_family(folded))
    }

    /// What passes within a workload in packets of the first family of the list. `None` exactly where it has one pod.
    pub(crate) fn within(&self, workload: u32) -> Result<Option<ConnSet>, NoMemory>
        requires { IsWorkload self.now workload }
        ensures { IfOk result (λ made. made ≡ (if is_alone (folding_of self.now) workload workload then None
            else Some (spec.set_of self.now workload workload))) }
    {
        let folded = self.folded();
        let family = first_family(folded);
        pair_set(self.alloc, folded, workload, workload, family)
    }

    /// What passes between a workload and each address, as `address_rows` of np_table has it.
    pub(crate) fn with_addresses(
        &mut self,
        workload: u32,
        direction: Direction,
    ) -> Result<SharedRows, NoMemory>
        requires { IsWorkload self.old workload }
        ensures rows { IfOk result (λ made. made ≡ address_rows (estate_table self.old) workload direction) }
        ensures same { self.new ≡ self.old }
    {
        self.addresses.rows_of(&mut self.sides, workload, direction)
    }
}

// The first of the families of the list.
fn first_family(folded: &Folded) -> Family
    ensures { result ≡ spec.family_of_list folded.now }
{
    match folded.estate().families() {
        [first, ..] => *first,
        [] => Family::Four,
    }
}
