//! A policy of any of the three kinds.

use np_model::{AdminPolicy, BasePolicy, NetPolicy};

/// A policy of any of the three kinds that are read.
#[derive(Drop)]
pub enum Policy {
    Net(NetPolicy),
    Admin(AdminPolicy),
    Base(BasePolicy),
}
