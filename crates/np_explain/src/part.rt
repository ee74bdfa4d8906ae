//! What decides, with all that it decides.

use np_conns::ConnSet;
use np_rules::Decider;

/// What decides packets at one of their ends, and the protocols and ports of the packets that it decides.
pub struct Part {
    pub decider: Decider,
    pub conns: ConnSet,
}

// Written out, so that letting one go is one call.
impl Drop for Part {
    fn drop(self) {
        let Part {
            decider: _decider,
            conns: _conns,
        } = self;
    }
}
