//! Which labels a requirement looks at.

/// Which labels a requirement looks at.
#[derive(Clone, Copy, PartialEq, Eq)]
pub enum Side {
    /// Those of the pod's namespace.
    Namespace,
    /// Those of the pod itself.
    Pod,
}
