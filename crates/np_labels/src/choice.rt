//! What becomes of a key.

use np_base::Text;

/// What becomes of a key in the labels that are to meet all requirements.
#[derive(Drop)]
pub(crate) enum Choice {
    /// No value meets the requirements on the key, nor does its absence.
    Clash,
    /// The key is absent.
    LeftOut,
    /// The key has this value.
    Value(Text),
}
