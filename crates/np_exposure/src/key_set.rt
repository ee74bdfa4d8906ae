//! Sets of keys of labels.

use crate::choices::KeyChoices;
use crate::side::Side;

/// A set of keys, by their places among the choices. Behind the first 64, keys are not told apart from those before them: a
/// key that is not in the set may seem to be, and none that is in it seems not to be.
#[derive(Clone, Copy)]
pub(crate) struct KeySet {
    bits: u64,
}

impl KeySet {
    /// No keys.
    pub(crate) fn nothing() -> KeySet {
        KeySet { bits: 0 }
    }

    /// All keys.
    pub(crate) fn everything() -> KeySet {
        KeySet { bits: u64::MAX }
    }

    /// One key of a side. One that is not among the choices may be any.
    pub(crate) fn of(state: &[KeyChoices<'_>], side: Side, key: &str) -> KeySet {
        let mut bits = 1u64;
        for choices in state {
            if choices.is_at(side, key) {
                return KeySet { bits };
            }
            bits = bits.rotate_left(1);
        }
        KeySet::everything()
    }

    /// The keys of both.
    pub(crate) fn join(self, other: KeySet) -> KeySet {
        KeySet {
            bits: self.bits | other.bits,
        }
    }

    /// Whether a key is in both.
    pub(crate) fn meets(self, other: KeySet) -> bool {
        self.bits & other.bits != 0
    }

    /// Whether no key is in it.
    pub(crate) fn is_empty(self) -> bool {
        self.bits == 0
    }
}
