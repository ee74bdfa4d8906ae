//! What follows from the promise. Each law is the contract of a call that does nothing.
ghost use Rattle.std.specs.Prelude.{◌≡◌, ℕ, List};
ghost use Rattle.np_args.specs.declared.end_word.EndWord.{EndWord};
ghost use Rattle.np_command.specs.Prelude.{SinkTrace, end_text};
ghost use Rattle.np_command_explain.specs.Prelude.{ExplainsAll, explain_text};

/// The promise leaves no choice: whatever two sinks were told of the same inputs and for the same words, the explanations have
/// one text.
pub fn one_text_says_what_decides()
    ensures { (out other : SinkTrace) (from to : EndWord) (texts : List (List ℕ)) (this : ExplainsAll out from to texts)
        (that : ExplainsAll other from to texts) →
        explain_text (end_text from) (end_text to) this.all ≡ explain_text (end_text from) (end_text to) that.all }
{}
