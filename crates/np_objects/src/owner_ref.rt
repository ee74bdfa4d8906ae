//! Owners of objects.

use np_base::Text;

/// The owner of an object: the first that controls it, by its owner references, and that counts (Kubernetes API
/// reference, OwnerReference). The node of a pod does not count, and of a controller only other controllers do.
#[derive(Drop)]
pub struct OwnerRef {
    pub kind: Text,
    pub name: Text,
}
