//! What is behind a source over the system: what opens names, and reads what it opened.
ghost use Rattle.std.specs.Prelude.{◌≡◌, ◌≢◌, ℕ, ◌≤◌, List, [], ◌∷◌, Bool, true, Option, length, codes, IfOk, OnErr};
ghost use Rattle.std.specs.Io.KnownBytes.{ReadConsumes};
ghost use Rattle.np_io.specs.Source.{BeganNext};
ghost use Rattle.np_io.specs.Told.{HasAll};

use std::io;

/// What opens names and reads what it opened. Contracts see of a system the bytes that each name holds and the names that it opened, where
/// it tells them, and whether a call of it may fail.
pub trait System {
    /// What was opened, as far as its bytes are left.
    type Stream: Drop;

    /// The bytes that each name holds; those of `-` are standard input. `None`: untold.
    ghost names: { Self → Option (List ℕ → List ℕ) };

    /// The names that were to be opened so far, in order. `None`: untold.
    ghost opened: { Self → Option (List (List ℕ)) };

    /// Whether a call may fail.
    ghost may_fail: { Self → Bool };

    /// The bytes that are left of what was opened. `None`: untold.
    ghost left: { Self.Stream → Option (List ℕ) };

    /// Opens standard input.
    fn standard_input(&mut self) -> Self::Stream
        ensures all_left { HasAll (names self.old) (codes "-") (left result) }
        ensures opened { BeganNext (opened self.old) (opened self.new) (codes "-" ∷ []) }
        ensures names { names self.new ≡ names self.old }
        ensures may_fail { may_fail self.new ≡ may_fail self.old };

    /// Opens the file of this name, which is not `-`, at its front.
    fn file(&mut self, name: &str) -> io::Result<Self::Stream>
        requires named { name.now ≢ codes "-" }
        ensures all_left { IfOk result (λ stream. HasAll (names self.old) name.now (left stream)) }
        ensures failed { OnErr result (may_fail self.old ≡ true) }
        ensures opened { BeganNext (opened self.old) (opened self.new) (name.now ∷ []) }
        ensures names { names self.new ≡ names self.old }
        ensures may_fail { may_fail self.new ≡ may_fail self.old };

    /// Hands out the next bytes, as `read` of `std::io::Read` does.
    fn read(&self, stream: &mut Self::Stream, into: &mut [u8]) -> io::Result<usize>
        ensures bound { IfOk result (λ n. n ≤ length into.new) }
        ensures next { ReadConsumes (left stream.old) (left stream.new) result into.new }
        ensures failed { OnErr result (may_fail self.now ≡ true) };
}
