//! Bytes that are held under names.
ghost use Rattle.std.specs.Prelude.{◌≡◌, ◌<◌, length, IfSome};
ghost use Rattle.np_io.specs.Memory.{place_of};

use np_base::{Seq, Text};

/// A name and its bytes.
#[derive(Debug, Drop)]
pub struct Held {
    /// The name.
    pub name: Text,
    /// The bytes.
    pub bytes: Seq<u8>,
}

// The place of a name, where it is held.
pub(crate) fn place_of(held: &[Held], name: &str) -> Option<usize>
    ensures place { result ≡ place_of held.now name.now }
    ensures placed { IfSome result (λ place. place < length held.now) }
{
    held.iter().position(|h| h.name.as_str() == name)
}
