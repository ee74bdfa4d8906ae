//! The rules that are known to be used.
ghost use Rattle.std.specs.Prelude.{◌≡◌, ◌&&◌, ℕ, false, OnOk};
ghost use Rattle.np_unused.specs.declared.rule_ref.Tier.{Tier as SpecTier};
ghost use Rattle.np_unused.specs.steps.Firsts.{Notes};
ghost use Rattle.np_unused.specs.steps.Known.{all_known, are_known, flags_of, is_known, marks};
ghost use Rattle.np_tiers.specs.Prelude.{mark_of};

use crate::first_rules::note_tier;
use crate::flags::Flags;
use crate::rule_ref::Tier;
use np_base::{Cells, NoMemory, Seq};
use np_rules::{LayerRules, RuleId};
use np_tiers::{AdminPart, Layer};
use std::alloc::Global;

/// The rules of one direction that are known to be used, tier by tier.
#[derive(Drop)]
pub struct UsedRules {
    pub admin: Flags,
    pub net: Flags,
    pub base: Flags,
}

impl UsedRules {
    /// No rule is known to be used. It takes no memory.
    #[tactic(auto, unfolding(crate::specs::steps::Known::is_known))]
    pub(crate) fn none(alloc: Global) -> UsedRules
        ensures { (tier : SpecTier) (policy place : ℕ) → is_known result tier policy place ≡ false }
    {
        UsedRules {
            admin: Flags::none(alloc),
            net: Flags::none(alloc),
            base: Flags::none(alloc),
        }
    }

    /// Whether a rule is known to be used.
    #[tactic(auto, unfolding(crate::specs::steps::Known::is_known))]
    pub(crate) fn has(&self, tier: Tier, policy: u32, place: u64) -> bool
        ensures { result ≡ is_known self.now tier policy place }
    {
        match tier {
            Tier::Admin => self.admin.has(policy, place),
            Tier::Net => self.net.has(policy, place),
            Tier::Base => self.base.has(policy, place),
        }
    }

    /// Whether all rules of a side are known to be used.
    #[tactic(auto, unfolding(crate::specs::steps::Known::all_known))]
    pub(crate) fn has_all(&self, rules: &LayerRules) -> bool
        ensures { result ≡ all_known self.now rules.now }
    {
        has_each(&self.admin, rules.admin.items())
            && has_each(&self.net, rules.net.items())
            && has_each(&self.base, rules.base.items())
    }

    /// Notes all rules that decide some spot of a layer, or pass it on. The rules are those of the layer, place by place. A
    /// rule decides or passes on what it is the first to match of the spots that the admin rules above its tier hand down.
    pub(crate) fn note_layer<S: Cells>(
        &mut self,
        alloc: Global,
        layer: Layer<S>,
        rules: &LayerRules,
    ) -> Result<(), NoMemory>
        ensures { OnOk result ((tier : SpecTier) → Notes (λ (spot : S.Spot) policy place.
            S.in_space spot && marks rules.now tier policy place (mark_of (λ set. S.has set spot) layer))
            (flags_of self.old tier) (flags_of self.new tier)) }
    {
        let Layer {
            admin,
            isolated,
            net,
            base,
        } = layer;
        let none: Seq<AdminPart<S>> = Seq::new(alloc);
        note_tier(
            alloc,
            none,
            admin.items(),
            rules.admin.items(),
            &mut self.admin,
        )?;
        if isolated {
            note_tier(alloc, admin, net.items(), rules.net.items(), &mut self.net)
        } else {
            note_tier(
                alloc,
                admin,
                base.items(),
                rules.base.items(),
                &mut self.base,
            )
        }
    }
}

// Whether all rules of a tier are known to be used.
fn has_each(flags: &Flags, ids: &[RuleId]) -> bool
    ensures { result ≡ are_known flags.now ids.now }
{
    ids.iter().all(|id| flags.has(id.policy, id.place))
}
