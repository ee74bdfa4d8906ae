//! Sinks of bytes.
ghost use Rattle.std.specs.Prelude.{◌≡◌, ℕ, ◌<◌, ◌≤◌, List, length, take, Option, Ok, is_some, IfOk, OnOk, OnErr};
ghost use Rattle.std.specs.Io.KnownBytes.{append_known};
ghost use Rattle.np_io.specs.Counts.{Rose, NeverFalls};

use std::fmt;

/// A call on a sink failed: it took nothing of the piece.
#[derive(Clone, Copy, Debug, PartialEq, Eq)]
pub struct SinkFailed;

impl fmt::Display for SinkFailed {
    ghost use Rattle.std.specs.Prelude.{Some, codes};

    ghost output = { λ _. Some (codes "cannot write") };

    fn fmt<W: fmt::Write>(&self, f: &mut fmt::Formatter<W>) -> fmt::Result {
        write!(f, "cannot write")
    }
}

impl std::error::Error for SinkFailed {}

/// What takes bytes. Contracts see of a sink the bytes that it took, where it tells them, and its count of
/// failures, which is below 2^64 and stays at 2^64 - 1 once it is there.
pub trait Sink {
    /// The bytes that it took, in order. `None`: untold.
    ghost taken: { Self → Option (List ℕ) };

    /// How many calls failed. It never falls.
    ghost faults: { Self → ℕ };

    /// Takes the first bytes of a piece, at least one of a piece that has any, and answers how many.
    /// `SinkFailed` comes only where the count of faults rose; nothing was then taken.
    fn write(&mut self, piece: &[u8]) -> Result<usize, SinkFailed>
        ensures bound { IfOk result (λ n. n ≤ length piece.now) }
        ensures takes { IfOk result (λ n. 0 < length piece.now → 0 < n) }
        ensures empty { length piece.now ≡ 0 → result ≡ Ok 0 }
        ensures taken { IfOk result (λ n. taken self.new ≡ append_known (taken self.old) (take n piece.now)) }
        ensures ok_faults { OnOk result (faults self.new ≡ faults self.old) }

        ensures failed { OnErr result (Rose (faults self.old) (faults self.new)) }
        ensures none_taken { OnErr result (taken self.new ≡ taken self.old) }

        ensures counts { NeverFalls (faults self.old) (faults self.new) }
        ensures told { is_some (taken self.new) ≡ is_some (taken self.old) };
}
