//! What a requirement asks of the value of its key.
ghost use Rattle.std.specs.Prelude.{◌≡◌};
ghost use Rattle.np_labels.specs.Selectors.{opposite_of};

/// What a requirement asks of the value of its key (Kubernetes API reference, LabelSelectorRequirement).
#[derive(Clone, Copy, Debug, PartialEq, Eq)]
pub enum Op {
    /// The key is there and its value is listed: `In`.
    OneOf,
    /// The key is absent or its value is not listed: `NotIn`.
    NoneOf,
    /// The key is there: `Exists`.
    Present,
    /// The key is absent: `DoesNotExist`.
    Absent,
}

impl Op {
    /// What is asked by the requirement that is met exactly where one that asks this is not.
    pub(crate) fn opposite(self) -> Op
        ensures { result ≡ opposite_of self }
    {
        match self {
            Op::OneOf => Op::NoneOf,
            Op::NoneOf => Op::OneOf,
            Op::Present => Op::Absent,
            Op::Absent => Op::Present,
        }
    }
}
