//! What follows from the promise. Each law is the contract of a call that does nothing.
ghost use Rattle.std.specs.Prelude.{◌≡◌, ℕ, List, flat_map};
ghost use Rattle.np_command.specs.Prelude.{SinkTrace};
ghost use Rattle.np_command_unused.specs.Promise.{ListsUnused};
ghost use Rattle.np_command_unused.specs.Report.{rule_line};

/// The promise leaves no choice: whatever two sinks were told of the same inputs, the rules are one list, and have one text.
pub fn one_list_of_rules_decides_nothing()
    ensures rules { (out other : SinkTrace) (texts : List (List ℕ)) (this : ListsUnused out texts) (that : ListsUnused other texts) →
        this.rules ≡ that.rules }
    ensures text { (out other : SinkTrace) (texts : List (List ℕ)) (this : ListsUnused out texts) (that : ListsUnused other texts) →
        flat_map (rule_line this.lists) this.rules ≡ flat_map (rule_line that.lists) that.rules }
{}
