//! Names of policies that several deciders have in common.
ghost use Rattle.std.specs.Prelude.{◌≡◌, IfOk};

use np_base::{NoMemory, Seq, Text};
use std::alloc::Global;
use std::marker::Model;
use std::rc::Rc;

/// Names of policies that are held once however many deciders have them, as those of the NetworkPolicies that isolate a pod.
/// Contracts see the list of the names.
#[derive(Drop)]
pub struct PolicyNames {
    names: Rc<Seq<Text>>,
}

impl Model for PolicyNames {
    ghost use Rattle.std.specs.Prelude.{List, ℕ};

    ghost Value = { List (List ℕ) };

    ghost view = { λ shared. shared.names.value };
}

impl PolicyNames {
    /// Names, to be shared.
    pub fn of(alloc: Global, names: Seq<Text>) -> Result<PolicyNames, NoMemory>
        ensures { IfOk result (λ made. made ≡ names) }
    {
        let names = Rc::new(alloc, names)?;
        Ok(PolicyNames { names })
    }

    /// The same names for one more decider. No name is copied.
    pub fn share(&self) -> Result<PolicyNames, NoMemory>
        ensures { IfOk result (λ made. made ≡ self.now) }
    {
        let names = self.names.clone()?;
        Ok(PolicyNames { names })
    }

    /// The names, lent.
    pub fn names(&self) -> &[Text]
        ensures { result.now ≡ self.now }
    {
        self.names.items()
    }
}
