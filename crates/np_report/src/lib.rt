//! The report as text: what is printed for the rows of a table.
#![tactic(auto)]

mod csv_form;
mod form;
mod form_report;
mod json_form;
mod laws;
mod lines;
mod query;
mod report_fault;
mod row;
mod spans;
mod tally;
mod text_form;

pub use csv_form::CsvForm;
pub use form::Form;
pub use form_report::{CsvReport, FormReport, JsonReport, TextReport};
pub use json_form::JsonForm;
pub use laws::equal_tables_print_equal_bytes;
pub use lines::lines_of;
pub use np_args::{FocusSide, Report};
pub use query::{Query, keeps};
pub use report_fault::ReportFault;
pub use row::{RowText, family_suffix, row_text};
pub use tally::Tally;
pub use text_form::TextForm;
