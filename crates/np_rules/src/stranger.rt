//! Pods that nobody has written yet.

use np_labels::Labels;

/// A pod that nobody has written yet, by the labels of its namespace and its own. It has no named ports and no
/// address. The namespace's labels say its name under `kubernetes.io/metadata.name`.
pub struct Stranger {
    pub namespace: Labels,
    pub labels: Labels,
}

// Written out, so that letting one go is one call.
impl Drop for Stranger {
    fn drop(self) {
        let Stranger {
            namespace: _namespace,
            labels: _labels,
        } = self;
    }
}
