//! Directions of rules.

/// Which way a rule looks: at who may send to the selected pods, or at whom they may send to.
#[derive(Clone, Copy, Debug, PartialEq, Eq)]
pub enum Direction {
    Ingress,
    Egress,
}
