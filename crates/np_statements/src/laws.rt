//! What follows from the definitions. Each law is the contract of a call that does nothing.
ghost use Rattle.std.specs.Prelude.{◌≡◌, ◌≢◌, ◌<◌, ◌↔◌, ℕ, List, [], None, Some, Ok, Err, All, Contains, length, true};
ghost use Rattle.np_addr.specs.Prelude.{IsAddress, set_has};
ghost use Rattle.np_addr.specs.declared.address.Address.{Address};
ghost use Rattle.np_check.specs.Prelude.{Holds};
ghost use Rattle.np_statements.specs.Prelude.{IsFirstBrokenLine, IsLineOf, IsStatementText, IsWellStatement, LineHolds, NamesAddress, NamesPod, asked_line, ends_found, ends_of, first_broken, statement_of, statement_read, statement_text, statements_of};
ghost use Rattle.np_check.specs.declared.question.Ends.{Ends};
ghost use Rattle.np_statements.specs.declared.statement_text.EndForm.{EndForm};
ghost use Rattle.np_statements.specs.declared.statement_text.EndForm.TheVariants.{Work};
ghost use Rattle.np_statements.specs.declared.statement_text.StatementText.{StatementText};
ghost use Rattle.np_model.specs.Prelude.{IsLawful};
ghost use Rattle.np_model.specs.declared.lists.EstateLists.{EstateLists};
ghost use Rattle.np_fold.specs.Prelude.{folding_of, name_of_workload, workload_number};
ghost use Rattle.np_statements.specs.declared.asked_line.AskedLine.{AskedLine};
ghost use Rattle.np_statements.specs.declared.broken.Broken.{Broken};
ghost use Rattle.np_statements.specs.declared.statement_line.StatementLine.{StatementLine};
ghost use Rattle.np_kinds.specs.Prelude.{IsWorkload};

/// A line is read as the statement whose text it is, and as none where it is that of no statement.
pub fn lines_are_read_by_the_grammar()
    ensures { (line : List ℕ) (statement : StatementText) →
        (statement_read line ≡ Some statement) ↔ IsStatementText line statement }
{}

/// A line is the text of one statement at most.
pub fn one_statement_of_a_line()
    ensures { (line : List ℕ) (statement other : StatementText) →
        IsStatementText line statement → IsStatementText line other → statement ≡ other }
{}

/// The text of a statement is read as that statement.
pub fn text_of_a_statement_reads_again()
    ensures { (statement : StatementText) → IsWellStatement statement → IsStatementText (statement_text statement) statement }
{}

/// The workloads of a form are those of the pods that it names, and its addresses are those that it names.
pub fn ends_are_those_of_their_forms()
    ensures pods { (lists : EstateLists) (form : EndForm) (ends : Ends) (place : ℕ) → IsLawful lists →
        ends_of lists form ≡ Ok ends → place < length lists.pods →
        Contains ends.works (workload_number lists place) ↔ NamesPod lists form place }
    ensures addresses { (lists : EstateLists) (form : EndForm) (ends : Ends) (address : Address) →
        ends_of lists form ≡ Ok ends → IsAddress address →
        (set_has ends.block address ≡ true) ↔ NamesAddress form address }
{}

/// A name is not known exactly where it is that of no workload.
pub fn unknown_names_are_of_no_workload()
    ensures { (lists : EstateLists) (name : List ℕ) →
        (ends_of lists (Work name) ≡ Err name)
        ↔ ((work : ℕ) → IsWorkload lists work → name_of_workload (folding_of lists) work ≢ name) }
{}

/// What a line asks, with its ends found, holds exactly where its statement holds for every pod and every address that it names.
pub fn lines_ask_what_their_statements_say()
    ensures { (lists : EstateLists) (line : StatementLine) (asked : AskedLine) → IsLawful lists → asked_line lists line ≡ Ok asked →
        Holds lists asked.question ↔ LineHolds lists line }
{}

/// No line of a file is broken exactly where all of its statements hold.
pub fn nothing_is_broken_where_a_file_holds()
    ensures { (lists : EstateLists) (bytes : List ℕ) (lines : List StatementLine) (asked : List AskedLine) → IsLawful lists →
        statements_of bytes ≡ Ok lines → ends_found lists lines ≡ Ok asked →
        (first_broken lists asked ≡ None) ↔ All (LineHolds lists) lines }
{}

/// The line that is found does not hold, and all lines before it hold. Its packet is the first that breaks it.
pub fn the_first_broken_line_is_found()
    ensures { (lists : EstateLists) (bytes : List ℕ) (lines : List StatementLine) (asked : List AskedLine) (broken : Broken) →
        IsLawful lists → statements_of bytes ≡ Ok lines → ends_found lists lines ≡ Ok asked →
        first_broken lists asked ≡ Some broken → IsFirstBrokenLine lists lines broken }
{}

/// A statement stands in the line of its number, as a file's lines are counted by its line feeds; and the number of a file that is
/// refused is that of a line that is no statement.
pub fn lines_are_counted_by_line_feeds()
    ensures read { (bytes : List ℕ) (lines : List StatementLine) → statements_of bytes ≡ Ok lines →
        All (λ line. (text : List ℕ) × IsLineOf bytes line.line text × (statement_of text ≡ Some line.statement)) lines }
    ensures refused { (bytes : List ℕ) (number : ℕ) → statements_of bytes ≡ Err number →
        (text : List ℕ) × IsLineOf bytes number text × (text ≢ []) × (statement_of text ≡ None) }
{}
