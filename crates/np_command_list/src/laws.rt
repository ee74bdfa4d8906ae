//! What follows from the promise. Each law is the contract of a call that does nothing.
ghost use Rattle.std.specs.Prelude.{◌≡◌, ℕ, List, Option};
ghost use Rattle.np_args.specs.declared.report.Report.{Report};
ghost use Rattle.np_command_list.specs.Prelude.{SayWhatPasses};
ghost use Rattle.np_model.specs.declared.lists.EstateLists.{EstateLists};
ghost use Rattle.np_report.specs.Prelude.{texts_of};
ghost use Rattle.np_report.specs.declared.query.Query.{Query};
ghost use Rattle.np_table.specs.declared.rows.Row.{Row};

/// The promise leaves no choice: two lists of rows that say what passes, of one estate and controller and for one query, are
/// told by the same texts.
pub fn one_text_says_what_passes()
    ensures { (lists : EstateLists) (sender : Option ℕ) (query : Query) (rows others : List Row) (names : List (List ℕ))
        (report : Report) → SayWhatPasses lists sender query rows → SayWhatPasses lists sender query others →
        texts_of names report rows ≡ texts_of names report others }
{}
