//! The parts of a tier, whichever it is.
ghost use Rattle.std.specs.Prelude.{◌≡◌};

use crate::layer::{AdminPart, BasePart};
use np_model::Action;

/// A rule of a tier: the set of the spots that it matches, and what it says of them.
pub(crate) trait TierRule<S> {
    ghost use Rattle.np_model.specs.declared.admin_policy.Action.{Action};

    ghost set_of: { Self → S };

    ghost action_of: { Self → Action };

    fn set(&self) -> &S
        ensures { result.now ≡ set_of self.now };

    fn action(&self) -> Action
        ensures { result ≡ action_of self.now };
}

impl<S> TierRule<S> for AdminPart<S> {
    ghost set_of = { λ part. part.set };

    ghost action_of = { λ part. part.action };

    fn set(&self) -> &S {
        &self.set
    }

    fn action(&self) -> Action {
        self.action
    }
}

impl<S> TierRule<S> for BasePart<S> {
    ghost use Rattle.np_tiers.specs.Runs.{base_action};

    ghost set_of = { λ part. part.set };

    ghost action_of = { λ part. base_action part.allow };

    fn set(&self) -> &S {
        &self.set
    }

    fn action(&self) -> Action {
        if self.allow {
            Action::Allow
        } else {
            Action::Deny
        }
    }
}
