//! Which pods the side of each of some pods may let through.
ghost use Rattle.std.specs.Prelude.{◌≡◌, ◌≤◌, ◌+◌, ◌++◌, ℕ, [], ◌||◌, not, All, IfOk, OnOk, length, map};
ghost use Rattle.std.specs.List.{list_any, range_with_len};
ghost use Rattle.np_reach.specs.Marks as spec;
ghost use Rattle.np_reach.specs.Marks.{AreWithin};
ghost use Rattle.np_reach.specs.Reach.{has_place, may_at, may_reach, reach_of};
ghost use Rattle.np_reach.specs.SidesOf.{AreSides};
ghost use Rattle.np_reach.specs.Stretches.{IsStretch};
ghost use Rattle.np_rules.specs.Prelude.{pod, pod_end};

use crate::spoken::{Marks, Spoken, chosen_of, own_of, spoken_by};
use crate::stretches::{Stretch, stretches};
use np_base::{NoMemory, Seq};
use np_model::{AdminPolicy, Direction, Estate, NetPolicy, Pod};
use np_rules::isolates_pod;
use std::alloc::Global;
use std::marker::Model;

/// For each of some pods, in a direction, which of these pods its side may let through as the far end of some packet. A
/// policy is asked once whether it selects a pod, and once whether it speaks of one, not once for each pair of pods; and the
/// second alone of pods of namespaces that it may speak of. Contracts see a row for each pod.
#[derive(Drop)]
pub struct Reach {
    rows: Seq<Seq<bool>>,
}

impl Model for Reach {
    ghost use Rattle.std.specs.Prelude.{List, Bool};

    ghost Value = { List (List Bool) };

    ghost view = { λ r. r.rows };
}

impl Reach {
    /// Nothing is known. It takes no memory.
    pub fn nothing(alloc: Global) -> Reach
        ensures { result ≡ [] }
    {
        Reach {
            rows: Seq::new(alloc),
        }
    }

    /// Which of the pods the side of each of them may let through.
    pub fn of(
        alloc: Global,
        estate: &Estate,
        pods: &[&Pod],
        direction: Direction,
    ) -> Result<Reach, NoMemory>
        ensures { IfOk result (λ made. made ≡ reach_of estate.now direction (map (λ one. pod_end one.now) pods.now)) }
    {
        let stretches = stretches(alloc, pods)?;
        let net = spoken_by(alloc, estate.net_policies(), direction, &stretches)?;
        let admin = spoken_by(alloc, estate.admin_policies(), direction, &stretches)?;
        let sides = SpokenSides {
            estate,
            direction,
            pods,
            net: &net,
            admin: &admin,
        };
        let mut rows = Seq::new(alloc);
        for stretch in &stretches {
            sides.push_rows(alloc, stretch, &mut rows)?;
        }
        Ok(Reach { rows })
    }

    /// Whether the side of a pod may let another through, both named by their places among the pods. What is not known may
    /// be.
    pub fn may(&self, near: usize, far: usize) -> bool
        ensures { result ≡ may_at self.now near far }
    {
        match self.rows.items().get(near) {
            Some(row) => row.items().get(far).copied().unwrap_or(true),
            None => true,
        }
    }
}

/// The sides of some pods in a direction, and the policies, each with which of these pods it speaks of.
#[derive(Clone, Copy)]
pub(crate) struct SpokenSides<'a> {
    pub estate: &'a Estate,
    pub direction: Direction,
    pub pods: &'a [&'a Pod],
    pub net: &'a [Spoken<'a, NetPolicy>],
    pub admin: &'a [Spoken<'a, AdminPolicy>],
}

impl<'a> SpokenSides<'a> {
    // Puts last the rows of the pods of a stretch. Policies that may select none of its namespace are not asked for each of them.
    fn push_rows(
        &self,
        alloc: Global,
        stretch: &Stretch<'_>,
        rows: &mut Seq<Seq<bool>>,
    ) -> Result<(), NoMemory>
        requires sides { AreSides self.now }
        requires alike { IsStretch stretch.now }
        ensures { OnOk result (rows.new ≡ rows.old
            ++ map (λ near. map (λ far. may_reach self.now.estate.now self.now.direction (pod_end near.now) (pod (pod_end far.now)))
            self.now.pods.now) stretch.now.pods.now) }
    {
        let net = own_of(alloc, self.net, stretch.one)?;
        let admin = own_of(alloc, self.admin, stretch.one)?;
        for near in stretch.pods {
            let isolated = isolates_pod(self.estate.net_policies(), self.direction, near);
            let by_net = chosen_of(alloc, self.net, net.items(), stretch.one, near)?;
            let by_admin = chosen_of(alloc, self.admin, admin.items(), stretch.one, near)?;
            rows.push(row_of(alloc, isolated, &by_net, &by_admin, self.pods.len())?)?;
        }
        Ok(())
    }
}

// For each of so many pods whether it may be let through by a pod that is isolated or not, and is selected by the policies
// that speak of these. By a pod that is not isolated each is.
fn row_of(
    alloc: Global,
    isolated: bool,
    net: &[&[Marks]],
    admin: &[&[Marks]],
    count: usize,
) -> Result<Seq<bool>, NoMemory>
    requires net { All (λ far. AreWithin count far.now) net.now }
    requires admin { All (λ far. AreWithin count far.now) admin.now }
    ensures { IfOk result (λ made. made ≡ map (λ place. not isolated || (list_any (λ far. spec.speaks_at far.now place) net.now
        || list_any (λ far. spec.speaks_at far.now place) admin.now)) (range_with_len 0 count)) }
{
    let mut row = vec![in alloc; !isolated; count]?;
    mark_chosen(&mut row, net);
    mark_chosen(&mut row, admin);
    Ok(Seq::from_vec(row))
}

// Marks the pods that some policies speak of.
fn mark_chosen(row: &mut Vec<bool>, chosen: &[&[Marks]])
    requires { All (λ far. AreWithin (length row.old.items) far.now) chosen.now }
    ensures length { length row.new.items ≡ length row.old.items }
    ensures marked { (place : ℕ) → has_place row.new.items place
        ≡ (has_place row.old.items place || list_any (λ far. spec.speaks_at far.now place) chosen.now) }
{
    for far in chosen {
        mark_all(row, far);
    }
}

// Marks the pods that a policy speaks of.
fn mark_all(row: &mut [bool], far: &[Marks])
    requires { AreWithin (length row.old) far.now }
    ensures length { length row.new ≡ length row.old }
    ensures marked { (place : ℕ) → has_place row.new place ≡ (has_place row.old place || spec.speaks_at far.now place) }
{
    for marks in far {
        mark(row, marks);
    }
}

// Marks those of one stretch.
fn mark(row: &mut [bool], marks: &Marks)
    requires { marks.now.from + length marks.now.pods ≤ length row.old }
    ensures length { length row.new ≡ length row.old }
    ensures marked { (place : ℕ) → has_place row.new place ≡ (has_place row.old place || spec.marks_at marks.now place) }
{
    for (number, spoken) in marks.pods.items().iter().enumerate() {
        if *spoken {
            row[marks.from + number] = true;
        }
    }
}
