//! What follows from the definition of command lines, in words of its users. Each law is the contract of a call that does
//! nothing.
ghost use Rattle.std.specs.Prelude.{◌≡◌, ◌≢◌, ◌==◌, ◌∷◌, ◌++◌, ◌≤◌, ◌↔◌, [], ℕ, IsUtf8, List, None, Some, codes, decimal, false, true};
ghost use Rattle.std.specs.List.{before_first, list_all};
ghost use Rattle.np_conns.specs.Prelude.{proto_named};
ghost use Rattle.np_conns.specs.declared.proto.Proto.{Proto};
ghost use Rattle.np_args.specs.Prelude.{Setting, Word, are_files, default_table, focus_side_of, format_of, format_word, is_list_option, is_plain, is_same_option, job_of, number_to, or_standard_input, packet_end_of, report_of, report_word, setting_word, side_word, table_job, text_table, with_setting};
ghost use Rattle.np_args.specs.declared.end_word.EndWord.{EndWord};
ghost use Rattle.np_args.specs.declared.focus_side.FocusSide.{FocusSide};
ghost use Rattle.np_args.specs.declared.format.Format.{Format};
ghost use Rattle.np_args.specs.declared.format.Format.TheVariants.{Plain};
ghost use Rattle.np_args.specs.declared.job.Job.TheVariants.{Check as CheckJob, Evaluate as EvaluateJob, Explain as ExplainJob, Exposure as ExposureJob, Flatten as FlattenJob, Sample as SampleJob, Unused as UnusedJob};
ghost use Rattle.np_args.specs.declared.report.Report.{Report};
ghost use Rattle.np_args.specs.declared.report.Report.TheVariants.{Two};

/// Words after `list` that are no options are the names of its files, in their order, and each option is at its default:
/// a table as text, in report 2, of all rows. So are those after `unused` and after `flatten`. Where there is none, each
/// reads standard input.
pub fn words_without_options_are_files()
    ensures list { (names : List Word) → list_all is_plain names ≡ true → are_files names ≡ true →
        job_of (codes "list" ∷ names) ≡ Some (text_table Two None None (or_standard_input names)) }
    ensures unused { (names : List Word) → list_all is_plain names ≡ true → are_files names ≡ true →
        job_of (codes "unused" ∷ names) ≡ Some (UnusedJob (or_standard_input names)) }
    ensures flatten { (names : List Word) → list_all is_plain names ≡ true → are_files names ≡ true →
        job_of (codes "flatten" ∷ names) ≡ Some (FlattenJob (or_standard_input names)) }
{}

/// Words after `--` are names of files, whatever they begin with.
pub fn words_after_two_hyphens_are_files()
    ensures { (names others : List Word) → list_all is_plain names ≡ true → are_files (names ++ others) ≡ true →
        job_of (codes "list" ∷ names ++ codes "--" ∷ others)
        ≡ Some (text_table Two None None (or_standard_input (names ++ others))) }
{}

/// Before the files, a report stands in the word after `--report`, or behind `=`, and leaves the other options at their
/// defaults. A value that is no report asks for nothing.
pub fn report_is_read_after_its_option()
    ensures apart { (value : Word) (report : Report) (names : List Word) → report_of value ≡ Some report →
        list_all is_plain names ≡ true → are_files names ≡ true →
        job_of (codes "list" ∷ codes "--report" ∷ value ∷ names)
        ≡ Some (text_table report None None (or_standard_input names)) }
    ensures joined { (value : Word) (report : Report) (names : List Word) → report_of value ≡ Some report →
        list_all is_plain names ≡ true → are_files names ≡ true →
        job_of (codes "list" ∷ (codes "--report=" ++ value) ∷ names)
        ≡ Some (text_table report None None (or_standard_input names)) }
    ensures refused { (value : Word) (names : List Word) → report_of value ≡ None → list_all is_plain names ≡ true →
        job_of (codes "list" ∷ (codes "--report=" ++ value) ∷ names) ≡ None }
{}

/// Before the files, a format stands in the word after `--format`, or behind `=`, and leaves the other options at their defaults. A
/// value that is no format asks for nothing.
pub fn format_is_read_after_its_option()
    ensures apart { (value : Word) (format : Format) (names : List Word) → format_of value ≡ Some format →
        list_all is_plain names ≡ true → are_files names ≡ true →
        job_of (codes "list" ∷ codes "--format" ∷ value ∷ names)
        ≡ Some (table_job (record default_table { format = format }) (or_standard_input names)) }
    ensures joined { (value : Word) (format : Format) (names : List Word) → format_of value ≡ Some format →
        list_all is_plain names ≡ true → are_files names ≡ true →
        job_of (codes "list" ∷ (codes "--format=" ++ value) ∷ names)
        ≡ Some (table_job (record default_table { format = format }) (or_standard_input names)) }
    ensures refused { (value : Word) (names : List Word) → format_of value ≡ None → list_all is_plain names ≡ true →
        job_of (codes "list" ∷ (codes "--format=" ++ value) ∷ names) ≡ None }
{}

/// Before the files, a side stands in the word after `--side`, or behind `=`, and leaves the other options at their defaults. A
/// value that is no side asks for nothing.
pub fn side_is_read_after_its_option()
    ensures apart { (value : Word) (side : FocusSide) (names : List Word) → focus_side_of value ≡ Some side →
        list_all is_plain names ≡ true → are_files names ≡ true →
        job_of (codes "list" ∷ codes "--side" ∷ value ∷ names)
        ≡ Some (table_job (record default_table { side = side }) (or_standard_input names)) }
    ensures joined { (value : Word) (side : FocusSide) (names : List Word) → focus_side_of value ≡ Some side →
        list_all is_plain names ≡ true → are_files names ≡ true →
        job_of (codes "list" ∷ (codes "--side=" ++ value) ∷ names)
        ≡ Some (table_job (record default_table { side = side }) (or_standard_input names)) }
    ensures refused { (value : Word) (names : List Word) → focus_side_of value ≡ None → list_all is_plain names ≡ true →
        job_of (codes "list" ∷ (codes "--side=" ++ value) ∷ names) ≡ None }
{}

/// Before the files, any text behind `--focus=` is a name. In a word of its own a name begins with no hyphen, or is the
/// hyphen alone.
pub fn focus_is_any_name()
    ensures apart { (name : Word) (names : List Word) → is_plain name ≡ true →
        list_all is_plain names ≡ true → are_files names ≡ true →
        job_of (codes "list" ∷ codes "--focus" ∷ name ∷ names)
        ≡ Some (text_table Two None (Some name) (or_standard_input names)) }
    ensures joined { (name : Word) (names : List Word) → list_all is_plain names ≡ true → are_files names ≡ true →
        job_of (codes "list" ∷ (codes "--focus=" ++ name) ∷ names)
        ≡ Some (text_table Two None (Some name) (or_standard_input names)) }
{}

/// Before the files, any text behind `--controller=` is a name, and so is one in a word of its own that begins with no
/// hyphen, or is the hyphen alone.
pub fn controller_is_any_name()
    ensures apart { (name : Word) (names : List Word) → is_plain name ≡ true →
        list_all is_plain names ≡ true → are_files names ≡ true →
        job_of (codes "list" ∷ codes "--controller" ∷ name ∷ names)
        ≡ Some (text_table Two (Some name) None (or_standard_input names)) }
    ensures joined { (name : Word) (names : List Word) → list_all is_plain names ≡ true → are_files names ≡ true →
        job_of (codes "list" ∷ (codes "--controller=" ++ name) ∷ names)
        ≡ Some (text_table Two (Some name) None (or_standard_input names)) }
{}

/// Words that begin with one option of `list` twice ask for nothing, whatever its values are and whatever follows.
pub fn options_given_twice_ask_for_nothing()
    ensures { (name : Word) → is_list_option name ≡ true → (first second : Word) (others : List Word) →
        job_of (codes "list" ∷ (codes "--" ++ name ++ codes "=" ++ first)
        ∷ (codes "--" ++ name ++ codes "=" ++ second) ∷ others) ≡ None }
{}

/// A word before `--` that begins with a hyphen, is more than that, and is no option of `list` asks for nothing: there are
/// no options of one letter, and of those of two hyphens only five, whose names end before an `=` (61).
pub fn other_options_ask_for_nothing()
    ensures short { (names : List Word) (first : ℕ) (rest : Word) (others : List Word) →
        list_all is_plain names ≡ true → IsUtf8 (first ∷ rest) → first ≢ 45 →
        job_of (codes "list" ∷ names ++ (codes "-" ++ first ∷ rest) ∷ others) ≡ None }
    ensures long { (names : List Word) (first : ℕ) (rest : Word) (others : List Word) →
        list_all is_plain names ≡ true → is_list_option (before_first (λ c. c == 61) (first ∷ rest)) ≡ false →
        job_of (codes "list" ∷ names ++ (codes "--" ++ first ∷ rest) ∷ others) ≡ None }
{}

/// The packet of `evaluate` is that of its four options, each with a value that its reader takes. Where no file is named,
/// `evaluate` reads standard input.
pub fn packet_is_read_of_its_options()
    ensures { (from to proto port : Word) (source destination : EndWord) (named : Proto) (number : ℕ) →
        packet_end_of from ≡ Some source → packet_end_of to ≡ Some destination →
        proto_named proto ≡ Some named → number_to 65535 port ≡ Some number →
        job_of (codes "evaluate" ∷ (codes "--from=" ++ from) ∷ (codes "--to=" ++ to)
        ∷ (codes "--protocol=" ++ proto) ∷ (codes "--port=" ++ port) ∷ [])
        ≡ Some (EvaluateJob source destination named number (codes "-" ∷ [])) }
{}

/// The ends of `explain` are those of its two options, each with a value that is an address or has a `/` in it. Where no
/// file is named, `explain` reads standard input.
pub fn ends_are_read_of_their_options()
    ensures { (from to : Word) (source destination : EndWord) → packet_end_of from ≡ Some source → packet_end_of to ≡ Some destination →
        job_of (codes "explain" ∷ (codes "--from=" ++ from) ∷ (codes "--to=" ++ to) ∷ [])
        ≡ Some (ExplainJob source destination (codes "-" ∷ [])) }
{}

/// `exposure` without options is that of all workloads, as text, of standard input. With `--workload=` it is that of the
/// workload of any name, and with `--format=` it is in that format.
pub fn exposure_is_of_all_or_of_one()
    ensures all { job_of (codes "exposure" ∷ []) ≡ Some (ExposureJob None Plain (codes "-" ∷ [])) }
    ensures one { (name : Word) → job_of (codes "exposure" ∷ (codes "--workload=" ++ name) ∷ [])
        ≡ Some (ExposureJob (Some name) Plain (codes "-" ∷ [])) }
    ensures format { (value : Word) (format : Format) → format_of value ≡ Some format →
        job_of (codes "exposure" ∷ (codes "--format=" ++ value) ∷ []) ≡ Some (ExposureJob None format (codes "-" ∷ [])) }
{}

/// Before the files, any text behind `--statement=` is the statement file of `check`, and so is one in a word of its own that
/// begins with no hyphen, or is the hyphen alone. Words ask for nothing that name standard input twice among that file and
/// the files, also where it stands for files that are not named, and none that name no statement file.
pub fn statement_is_read_after_its_option()
    ensures apart { (statement : Word) (names : List Word) → is_plain statement ≡ true →
        list_all is_plain names ≡ true → are_files (statement ∷ or_standard_input names) ≡ true →
        job_of (codes "check" ∷ codes "--statement" ∷ statement ∷ names)
        ≡ Some (CheckJob statement (or_standard_input names)) }
    ensures joined { (statement : Word) (names : List Word) →
        list_all is_plain names ≡ true → are_files (statement ∷ or_standard_input names) ≡ true →
        job_of (codes "check" ∷ (codes "--statement=" ++ statement) ∷ names)
        ≡ Some (CheckJob statement (or_standard_input names)) }
    ensures twice { (statement : Word) (names : List Word) →
        list_all is_plain names ≡ true → are_files (statement ∷ or_standard_input names) ≡ false →
        job_of (codes "check" ∷ (codes "--statement=" ++ statement) ∷ names) ≡ None }
    ensures standard_input { job_of (codes "check" ∷ codes "--statement" ∷ codes "-" ∷ []) ≡ None }
    ensures missing { job_of (codes "check" ∷ []) ≡ None }
{}

/// `sample` takes one word, the decimal of a number from 1 to 1000. Any other word that is no option asks for nothing, and so
/// do no word, and two words or more that begin with two that are no options.
pub fn sample_takes_one_number()
    ensures number { (n : ℕ) → 1 ≤ n → n ≤ 1000 → job_of (codes "sample" ∷ decimal n ∷ []) ≡ Some (SampleJob n) }
    ensures other { (word : Word) → is_plain word ≡ true → ((n : ℕ) → 1 ≤ n → n ≤ 1000 → word ≢ decimal n) →
        job_of (codes "sample" ∷ word ∷ []) ≡ None }
    ensures none { job_of (codes "sample" ∷ []) ≡ None }
    ensures two { (first second : Word) (others : List Word) → is_plain first ≡ true → is_plain second ≡ true →
        job_of (codes "sample" ∷ first ∷ second ∷ others) ≡ None }
{}

/// The words that are ports are the decimals of the numbers from 1 to 65535.
pub fn ports_are_decimals()
    ensures { (word : Word) (port : ℕ) →
        (number_to 65535 word ≡ Some port) ↔ ((1 ≤ port) × (port ≤ 65535) × (word ≡ decimal port)) }
{}

/// The words that are formats, reports and sides: each of these has one word, and no other word is one.
pub fn values_have_one_word()
    ensures format { (word : Word) (format : Format) → (format_of word ≡ Some format) ↔ (word ≡ format_word format) }
    ensures report { (word : Word) (report : Report) → (report_of word ≡ Some report) ↔ (word ≡ report_word report) }
    ensures side { (word : Word) (side : FocusSide) → (focus_side_of word ≡ Some side) ↔ (word ≡ side_word side) }
{}

/// Before the files, two options of `list`, in either order, each set their part of the table, and leave the other parts at their
/// defaults.
pub fn two_options_are_both_read()
    ensures { (first second : Setting) (names : List Word) → is_same_option first second ≡ false →
        list_all is_plain names ≡ true → are_files names ≡ true →
        job_of (codes "list" ∷ setting_word first ∷ setting_word second ∷ names)
        ≡ Some (table_job (with_setting (with_setting default_table first) second) (or_standard_input names)) }
{}
