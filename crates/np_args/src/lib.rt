//! What the words of a command line ask for.
#![tactic(auto)]

mod arguments;
mod check_words;
mod command_words;
mod end_word;
mod evaluate_words;
mod explain_words;
mod exposure_words;
mod file_words;
mod files;
mod focus_side;
mod format;
mod found;
mod job;
mod laws;
mod list_words;
mod number;
mod report;
mod sample_words;
mod words;
mod words_fault;

pub use end_word::EndWord;
pub use focus_side::FocusSide;
pub use format::Format;
pub use job::Job;
pub use laws::{
    controller_is_any_name, ends_are_read_of_their_options, exposure_is_of_all_or_of_one,
    focus_is_any_name, format_is_read_after_its_option, options_given_twice_ask_for_nothing,
    other_options_ask_for_nothing, packet_is_read_of_its_options, ports_are_decimals,
    report_is_read_after_its_option, sample_takes_one_number, side_is_read_after_its_option,
    statement_is_read_after_its_option, two_options_are_both_read, values_have_one_word,
    words_after_two_hyphens_are_files, words_without_options_are_files,
};
pub use report::Report;
pub use words::read_words;
pub use words_fault::WordsFault;
