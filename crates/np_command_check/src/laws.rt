//! What follows from the promise. Each law is the contract of a call that does nothing.
ghost use Rattle.std.specs.Prelude.{◌≡◌, ℕ, List};
ghost use Rattle.np_command.specs.Prelude.{SinkTrace};
ghost use Rattle.np_command_check.specs.Prelude.{ChecksAll, FindsBroken};
ghost use Rattle.np_statements.specs.Prelude.{broken_text};

/// The promise leaves no choice: whatever two sinks were told of the same file and inputs, both were told that the same statements
/// hold, or both the same line with the same packet, in one text; and not the one that all hold, and the other that one does not.
pub fn one_finding_says_what_holds()
    ensures statements { (out other : SinkTrace) (texts : List (List ℕ)) (this : ChecksAll out texts) (that : ChecksAll other texts) →
        this.lines ≡ that.lines }
    ensures apart { (out other : SinkTrace) (texts : List (List ℕ)) → ChecksAll out texts → FindsBroken other texts → ⊥ }
    ensures broken { (out other : SinkTrace) (texts : List (List ℕ)) (this : FindsBroken out texts) (that : FindsBroken other texts) →
        this.broken ≡ that.broken }
    ensures text { (out other : SinkTrace) (texts : List (List ℕ)) (this : FindsBroken out texts) (that : FindsBroken other texts) →
        broken_text this.lists this.broken ≡ broken_text that.lists that.broken }
{}
