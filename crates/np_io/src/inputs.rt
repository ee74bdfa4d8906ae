//! Sources of bytes by name.
ghost use Rattle.std.specs.Prelude.{◌≡◌, ℕ, ◌<◌, ◌≤◌, List, [], ◌∷◌, length, take, Option, Some, None, Ok, is_some, IfOk, OnOk, OnErr};
ghost use Rattle.std.specs.Option.{option_map};
ghost use Rattle.std.specs.Io.KnownBytes.{prepend_known, IsAtEnd};
ghost use Rattle.np_io.specs.Counts.{Rose, NeverFalls, handed_after};
ghost use Rattle.np_io.specs.Source.{BeganNext, IsTold, ReadFailed};

use std::fmt;

/// A call on a source failed: the name could not be begun, or its next bytes could not be read.
#[derive(Clone, Copy, Debug, PartialEq, Eq)]
pub struct InputFailed;

impl fmt::Display for InputFailed {
    ghost use Rattle.std.specs.Prelude.{codes};

    ghost output = { λ _. Some (codes "cannot read") };

    fn fmt<W: fmt::Write>(&self, f: &mut fmt::Formatter<W>) -> fmt::Result {
        write!(f, "cannot read")
    }
}

impl std::error::Error for InputFailed {}

/// A source of bytes by name. A name is begun, and then its bytes are read piece by piece. Contracts see of a
/// source what it tells of its bytes, which may be nothing, and its counts, which every source tells. A count is
/// below 2^64 and stays at 2^64 - 1 once it is there.
pub trait Inputs {
    /// The bytes that a name holds. `None`: untold.
    ghost holds: { Self → List ℕ → Option (List ℕ) };

    /// Which name is begun: the outer `None` where this is untold, the inner one where no name is.
    ghost begun: { Self → Option (Option (List ℕ)) };

    /// The names that were begun so far, in order. `None`: untold.
    ghost began: { Self → Option (List (List ℕ)) };

    /// The bytes that are left of the begun name. `None`: untold.
    ghost left: { Self → Option (List ℕ) };

    /// How many calls failed, for each name. It never falls.
    ghost faults: { Self → List ℕ → ℕ };

    /// How many bytes were handed out in all.
    ghost handed: { Self → ℕ };

    /// Begins a name, which is then the begun one, with all of its bytes left. `InputFailed` comes only where the
    /// count of faults of this name rose; no name is then begun, and nothing is left. Whatever the answer, the name is
    /// the last of those that were begun, where that is still told.
    fn begin(&mut self, name: &str) -> Result<(), InputFailed>
        ensures begins { OnOk result (begun self.new ≡ option_map (λ _. Some name.now) (begun self.old)) }
        ensures all_left { OnOk result ((bytes : List ℕ) →
            IsTold (holds self.old) (left self.old) name.now bytes → left self.new ≡ Some bytes) }
        ensures ok_faults { OnOk result (faults self.new ≡ faults self.old) }

        ensures failed { OnErr result (Rose (faults self.old name.now) (faults self.new name.now)) }
        ensures none_begun { OnErr result (begun self.new ≡ option_map (λ _. None) (begun self.old)) }
        ensures none_left { OnErr result (left self.new ≡ option_map (λ _. []) (left self.old)) }

        ensures began { BeganNext (began self.old) (began self.new) (name.now ∷ []) }
        ensures counts { (other : List ℕ) → NeverFalls (faults self.old other) (faults self.new other) }
        ensures handed { handed self.new ≡ handed self.old }
        ensures names { holds self.new ≡ holds self.old }
        ensures begun_told { is_some (begun self.new) ≡ is_some (begun self.old) }
        ensures left_told { is_some (left self.new) ≡ is_some (left self.old) };

    /// Hands out the next bytes that are left, into the first places of the buffer, and answers how many they
    /// are. For a buffer with room, `Ok(0)` is the end; for an empty one the answer is `Ok(0)`. `InputFailed`
    /// comes only where the count of faults of the begun name rose, or that of every name where it is untold
    /// which one is begun; nothing is then handed out. No read changes which name is begun, or
    /// which were.
    fn read(&mut self, into: &mut [u8]) -> Result<usize, InputFailed>
        ensures bound { IfOk result (λ n. n ≤ length into.new) }
        ensures next { IfOk result (λ n. left self.old ≡ prepend_known (take n into.new) (left self.new)) }
        ensures end { IfOk result (λ n. n ≡ 0 → 0 < length into.new → IsAtEnd (left self.new)) }
        ensures empty { length into.new ≡ 0 → result ≡ Ok 0 }
        ensures handed { IfOk result (λ n. handed self.new ≡ handed_after (handed self.old) n) }
        ensures ok_faults { OnOk result (faults self.new ≡ faults self.old) }

        ensures failed { OnErr result (ReadFailed (begun self.old) (faults self.old) (faults self.new)) }
        ensures none_handed { OnErr result (handed self.new ≡ handed self.old) }
        ensures none_read { OnErr result (left self.new ≡ left self.old) }

        ensures counts { (other : List ℕ) → NeverFalls (faults self.old other) (faults self.new other) }
        ensures begun { begun self.new ≡ begun self.old }
        ensures began { began self.new ≡ began self.old }
        ensures names { holds self.new ≡ holds self.old }
        ensures left_told { is_some (left self.new) ≡ is_some (left self.old) };

    /// While no name is begun, nothing is left.
    ghost none_left: { (inputs : Self) → begun inputs ≡ Some None → IsAtEnd (left inputs) };
}
