//! How much memory sets of connections take.

use np_conns::{ConnSet, Proto};

/// About how many bytes a set takes that is kept with what it answers. Nothing is promised of it: it bounds what is kept.
pub fn bytes_of_set(set: &ConnSet) -> usize {
    let tcp = set.spans(Proto::Tcp).len();
    let udp = set.spans(Proto::Udp).len();
    let sctp = set.spans(Proto::Sctp).len();
    let spans = tcp.saturating_add(udp).saturating_add(sctp);
    spans.saturating_mul(4).saturating_add(192)
}
