//! The rules of a pod, and a pod that has the same side.
ghost use Rattle.std.specs.Prelude.{◌≡◌, ◌<◌, IfOk, length, true};
ghost use Rattle.std.specs.Bool.{OnTrue};
ghost use Rattle.np_conns.specs.Prelude.{IsConns, has_spot, is_spot};
ghost use Rattle.np_conns.specs.declared.port_spot.PortSpot.{PortSpot};
ghost use Rattle.np_kinds.specs.Kinds.{side_allows_pod};
ghost use Rattle.np_kinds.specs.Shared.{IsAlike, IsSetToward};
ghost use Rattle.np_rules.specs.Prelude.{side_of};

use crate::shared_sets::{PodQuestion, SharedSets};
use np_addr::Family;
use np_base::{Cells, NoMemory};
use np_conns::ConnSet;
use np_model::{Direction, Estate};
use np_rules::{PodRules, is_same_side, side_mark};
use std::alloc::Global;
use std::collections::HashMap;
use std::marker::Model;

/// The rules of a pod in a direction, and a pod that has the same side: the first that was found, and maybe the pod itself.
/// What the one allows with a far pod the other allows, too. Contracts see the side of the pod.
pub(crate) struct SharedSide<'a> {
    rules: PodRules<'a>,
    direction: Direction,
    like: u32,
}

// Written out, so that letting one go is one call.
impl<'a> Drop for SharedSide<'a> {
    fn drop(self) {
        let SharedSide {
            rules: _rules,
            direction: _direction,
            like: _like,
        } = self;
    }
}

impl<'a> Model for SharedSide<'a> {
    ghost use Rattle.std.specs.Prelude.{◌≡◌};
    ghost use Rattle.np_kinds.specs.Shared.{IsAlike};
    ghost use Rattle.np_rules.specs.PodSides.{PodSide};

    ghost Value = { PodSide };

    ghost view = { λ s. s.rules };

    ghost invariant = { λ s. IsAlike s.rules s.like × (s.rules.direction ≡ s.direction) };
}

impl<'a> SharedSide<'a> {
    /// The side of a pod, which is named by its place in the estate. The first pods of sides are found by the marks of these,
    /// and the pod is the first of its mark where there is none.
    pub(crate) fn of(
        alloc: Global,
        estate: &'a Estate,
        pod: u32,
        direction: Direction,
        firsts: &mut HashMap<u64, u32>,
    ) -> Result<SharedSide<'a>, NoMemory>
        requires { pod < length estate.now.pods }
        ensures { IfOk result (λ made. made ≡ side_of estate.now pod direction) }
    {
        let like = pod_alike(estate, pod, direction, firsts)?;
        let rules = PodRules::of(alloc, estate, pod, direction)?;
        Ok(SharedSide {
            rules,
            direction,
            like,
        })
    }

    /// The rules of the pod.
    pub(crate) fn rules(&self) -> &PodRules<'a>
        ensures { result.now ≡ self.now }
    {
        &self.rules
    }

    /// A pod that has the same side.
    pub(crate) fn like(&self) -> u32
        ensures { IsAlike self.now result }
    {
        self.like
    }

    /// The protocols and ports that the side allows with another pod as the far end, which is named by its place in the estate,
    /// in packets of a family. The answer is kept for the sides that are the same.
    pub(crate) fn pod_set(
        &self,
        alloc: Global,
        peer: u32,
        family: Family,
        sets: &mut SharedSets<'_>,
    ) -> Result<ConnSet, NoMemory>
        requires peer { peer < length self.now.lists.pods }
        requires lists { sets.old ≡ self.now.lists }
        ensures set { IfOk result (IsSetToward self.now peer family) }
        ensures lists { sets.new ≡ sets.old }
    {
        let asked = PodQuestion {
            direction: self.direction,
            near: self.like,
            peer,
            family,
        };
        if let Some(set) = sets.find(asked) {
            return set.copy();
        }
        let set = self.rules.pod_set(alloc, peer, family)?;
        sets.keep(asked, &set)?;
        Ok(set)
    }
}

// The first pod of the same mark where it has the same side, and else the pod itself. No promise is made of marks, so that each
// is looked up and asked again.
fn pod_alike(
    estate: &Estate,
    pod: u32,
    direction: Direction,
    firsts: &mut HashMap<u64, u32>,
) -> Result<u32, NoMemory>
    requires { pod < length estate.now.pods }
    ensures { IfOk result (IsAlike (side_of estate.now pod direction)) }
{
    let mark = side_mark(estate, pod, direction);
    let key = match direction {
        Direction::Ingress => mark,
        Direction::Egress => !mark,
    };
    let Some(first) = firsts.get(&key).copied() else {
        firsts.insert(key, pod)?;
        return Ok(pod);
    };
    if is_alike(estate, pod, first, direction) {
        Ok(first)
    } else {
        Ok(pod)
    }
}

// Whether the second is a place of a pod, and that pod has the same side as the first.
fn is_alike(estate: &Estate, pod: u32, other: u32, direction: Direction) -> bool
    requires { pod < length estate.now.pods }
    ensures { OnTrue result (IsAlike (side_of estate.now pod direction) other) }
{
    (other as usize) < estate.pods().len() && is_same_side(estate, pod, other, direction)
}
