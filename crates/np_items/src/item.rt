//! An item of a list.

use np_objects::Object;
use np_policies::Policy;

/// One item of a list: a policy that is read, or an object that is no policy. `Object(Object::Other)` is an object of a
/// kind that is not read, as a ConfigMap: it is skipped and counted. A policy that is not read, as one of another
/// project, is no item: its inputs are refused.
#[derive(Drop)]
pub enum Item {
    Object(Object),
    Policy(Policy),
}
