//! Names with numbers in them.
ghost use Rattle.std.specs.Prelude.{◌≡◌, ◌++◌, IfOk, decimal, string_bytes};

use std::alloc::{AllocError, Global};

// How many namespaces a sample has, and how many NetworkPolicies: one in each.
pub(crate) const NAMESPACES: u32 = 5;

// A word with a number behind it, as `p0`.
pub(crate) fn numbered(alloc: Global, word: &str, number: u32) -> Result<String, AllocError>
    ensures { IfOk result (λ name. string_bytes name ≡ word.now ++ decimal number) }
{
    format!(in alloc; "{word}{number}")
}
