//! A row of an exposure.

use crate::sided_requirement::SidedRequirement;
use np_base::Seq;
use np_conns::ConnSet;

/// A row of an exposure: the protocols and ports of the pods that meet all its requirements and no row before it.
pub struct ExposureRow {
    /// In the order of first mention, each once. Without any the row speaks of all pods.
    pub requirements: Seq<SidedRequirement>,
    pub conns: ConnSet,
}

// Written out, so that letting one go is one call.
impl Drop for ExposureRow {
    fn drop(self) {
        let ExposureRow {
            requirements: _requirements,
            conns: _conns,
        } = self;
    }
}
