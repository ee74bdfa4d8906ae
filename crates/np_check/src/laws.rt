//! What follows from the definitions. Each law is the contract of a call that does nothing.
ghost use Rattle.std.specs.Prelude.{◌≡◌, ◌↔◌, None, Some, All, true};
ghost use Rattle.np_check.specs.Prelude.{Holds, IsBroken, IsFirstBroken, counterexample_of, is_ascending};
ghost use Rattle.np_check.specs.declared.counterexample.Counterexample.{Counterexample};
ghost use Rattle.np_check.specs.declared.question.Question.{Question};
ghost use Rattle.np_model.specs.Prelude.{IsLawful};
ghost use Rattle.np_model.specs.declared.lists.EstateLists.{EstateLists};
ghost use Rattle.np_kinds.specs.Prelude.{IsWorkload};

/// `check` finds nothing exactly where the statement holds: where every packet that it speaks of complies, between every
/// two different pods of its workloads, and between every pod of them and every address of its blocks.
pub fn nothing_is_found_where_a_statement_holds()
    ensures { (lists : EstateLists) (question : Question) → IsLawful lists →
        All (IsWorkload lists) question.source.works → All (IsWorkload lists) question.destination.works →
        (counterexample_of lists question ≡ None) ↔ Holds lists question }
{}

/// What `check` finds breaks the statement, and no packet that does comes before it; and where it finds nothing, none does.
pub fn the_first_packet_is_found()
    ensures first { (lists : EstateLists) (question : Question) (packet : Counterexample) →
        is_ascending question.source.works ≡ true → is_ascending question.destination.works ≡ true →
        counterexample_of lists question ≡ Some packet → IsFirstBroken lists question packet }
    ensures none { (lists : EstateLists) (question : Question) (packet : Counterexample) →
        counterexample_of lists question ≡ None → IsBroken lists question packet → ⊥ }
{}
