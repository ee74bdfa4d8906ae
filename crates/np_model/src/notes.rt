//! What was left out.

/// How many objects were left out of the estate, and why.
#[derive(Clone, Copy, PartialEq, Eq)]
pub struct Notes {
    /// Pods and templates on the network of their node.
    pub host: u64,
    /// Pods of the phase `Succeeded` or `Failed`.
    pub finished: u64,
    /// Objects of kinds that are not read.
    pub skipped: u64,
    /// Pods without an address, where some policy lists networks, which match none of them; else 0.
    pub unaddressed: u64,
}
