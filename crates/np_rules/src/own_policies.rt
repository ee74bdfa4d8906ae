//! The NetworkPolicies of one namespace.
ghost use Rattle.std.specs.Prelude.{◌≡◌, ◌+◌, ◌<◌, ℕ, filter, length, AllPairs};
ghost use Rattle.std.specs.List.{slice_get};
ghost use Rattle.std.specs.Str.{bytes_eq};
ghost use Rattle.np_model.specs.Prelude.{PolicyStandsBefore};

use np_model::NetPolicy;

/// Policies that stand together in a list, and the place of the first of them there.
#[derive(Clone, Copy)]
pub(crate) struct OwnPolicies<'a> {
    pub first: usize,
    pub policies: &'a [NetPolicy],
}

/// The policies of a namespace, in order. They stand together, and are found by halves.
pub(crate) fn own_policies<'a>(policies: &'a [NetPolicy], namespace: &str) -> OwnPolicies<'a>
    requires { AllPairs PolicyStandsBefore policies.now }
    ensures own { result.policies.now ≡ filter (λ policy. bytes_eq policy.namespace namespace.now) policies.now }
    ensures first { (among : ℕ) → among < length result.policies.now →
        slice_get policies.now (result.first + among) ≡ slice_get result.policies.now among }
{
    let first = policies.partition_point(|policy| policy.namespace.as_str() < namespace);
    let (_, rest) = policies.split_at(first);
    let count = rest.partition_point(|policy| policy.namespace.as_str() <= namespace);
    let (own, _) = rest.split_at(count);
    OwnPolicies {
        first,
        policies: own,
    }
}
