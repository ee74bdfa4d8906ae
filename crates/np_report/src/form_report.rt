//! Reports, row by row.
ghost use Rattle.std.specs.Prelude.{◌≡◌, ◌≢◌, ◌↔◌, true, is_some, IsTrue, IfOk, OnOk, OnErr, IfErr, IsErrOf};
ghost use Rattle.std.specs.Io.KnownBytes.{append_known};
ghost use Rattle.np_io.specs.Prelude.{NeverFalls, Rose, TookFront};
ghost use Rattle.np_report.specs.Forms.{fresh, under_way};

use crate::csv_form::CsvForm;
use crate::form::Form;
use crate::json_form::JsonForm;
use crate::report_fault::ReportFault;
use crate::row::RowText;
use crate::text_form::TextForm;
use np_io::{Sink, write_whole};
use std::alloc::Global;
use std::marker::{Model, PhantomData};

/// A report of lines of text.
pub type TextReport = FormReport<TextForm>;

/// A report of comma-separated values.
pub type CsvReport = FormReport<CsvForm>;

/// A report in JSON.
pub type JsonReport = FormReport<JsonForm>;

/// A report in a form, which is given row by row, and then its end. Contracts see of it whether a row came and whether it
/// is broken: it is once a call was refused, and once its end was given. A broken report refuses every call.
///
/// `row` and `finish` write to a sink. `line` and `end` are the same without one: they give the bytes that those write.
#[derive(Drop)]
pub struct FormReport<F: Form> {
    alloc: Global,
    has_rows: bool,
    broken: bool,
    form: PhantomData<F>,
}

impl<F: Form> Model for FormReport<F> {
    ghost use Rattle.np_report.specs.Forms.{Progress};

    ghost Value = { Progress };

    ghost view = { λ report. record { has_rows = report.has_rows; broken = report.broken } };
}

impl<F: Form> FormReport<F> {
    /// A report without rows yet.
    pub fn new(alloc: Global) -> FormReport<F>
        ensures { result ≡ fresh }
    {
        FormReport {
            alloc,
            has_rows: false,
            broken: false,
            form: PhantomData,
        }
    }

    /// The bytes of the next row. `Broken` comes exactly where the report was, and any other refusal is `NoMemory`.
    pub fn line(&mut self, row: &RowText) -> Result<Vec<u8>, ReportFault>
        ensures bytes { IfOk result (λ line. line.items ≡ F.bytes.row self.old.has_rows row.now) }
        ensures ok { OnOk result (self.new ≡ under_way) }
        ensures broken { IsErrOf result ReportFault.Broken ↔ IsTrue self.old.broken }
        ensures no_sink { IfErr result (λ fault. fault ≢ ReportFault.SinkFailed) }
        ensures err { OnErr result (self.new.broken ≡ true) }
    {
        if self.broken {
            return Err(ReportFault::Broken);
        }
        self.broken = true;
        let line = F::line(self.alloc, self.has_rows, row)?;
        self.has_rows = true;
        self.broken = false;
        Ok(line)
    }

    /// The bytes behind the last row, after which the report is broken. It is refused, as `Broken`, exactly where the
    /// report was.
    pub fn end(&mut self) -> Result<&'static str, ReportFault>
        ensures bytes { IfOk result (λ end. end.now ≡ F.bytes.end self.old.has_rows) }
        ensures broken { IsErrOf result ReportFault.Broken ↔ IsTrue self.old.broken }
        ensures only { IfErr result (λ fault. fault ≡ ReportFault.Broken) }
        ensures after { self.new.broken ≡ true }
    {
        if self.broken {
            return Err(ReportFault::Broken);
        }
        self.broken = true;
        Ok(F::end(self.has_rows))
    }

    /// Writes the next row.
    ///
    /// `SinkFailed` comes only where the sink's count of faults rose: it then took a front of the row's bytes. `Broken` comes
    /// exactly where the report was. After `Broken` and `NoMemory` the sink was not called.
    pub fn row<O: Sink>(&mut self, out: &mut O, row: &RowText) -> Result<(), ReportFault>
        ensures written { OnOk result
            (O.taken out.new ≡ append_known (O.taken out.old) (F.bytes.row self.old.has_rows row.now)) }
        ensures ok_faults { OnOk result (O.faults out.new ≡ O.faults out.old) }
        ensures ok { OnOk result (self.new ≡ under_way) }

        ensures failed { IsErrOf result ReportFault.SinkFailed → Rose (O.faults out.old) (O.faults out.new) }
        ensures front { OnErr result
            (TookFront (O.taken out.old) (O.taken out.new) (F.bytes.row self.old.has_rows row.now)) }
        ensures uncalled { IfErr result (λ fault. fault ≢ ReportFault.SinkFailed → out.new ≡ out.old) }
        ensures broken { IsErrOf result ReportFault.Broken ↔ IsTrue self.old.broken }
        ensures err { OnErr result (self.new.broken ≡ true) }

        ensures counts { NeverFalls (O.faults out.old) (O.faults out.new) }
        ensures told { is_some (O.taken out.new) ≡ is_some (O.taken out.old) }
    {
        let line = self.line(row)?;
        if write_whole(out, &line).is_err() {
            self.broken = true;
            return Err(ReportFault::SinkFailed);
        }
        Ok(())
    }

    /// Writes what stands behind the last row, after which the report is broken.
    ///
    /// `SinkFailed` comes only where the sink's count of faults rose: it then took a front of the bytes. `Broken` comes
    /// exactly where the report was, and the sink was not called then. There is no other refusal.
    pub fn finish<O: Sink>(&mut self, out: &mut O) -> Result<(), ReportFault>
        ensures written { OnOk result
            (O.taken out.new ≡ append_known (O.taken out.old) (F.bytes.end self.old.has_rows)) }
        ensures ok_faults { OnOk result (O.faults out.new ≡ O.faults out.old) }
        ensures after { self.new.broken ≡ true }

        ensures failed { IsErrOf result ReportFault.SinkFailed → Rose (O.faults out.old) (O.faults out.new) }
        ensures front { OnErr result
            (TookFront (O.taken out.old) (O.taken out.new) (F.bytes.end self.old.has_rows)) }
        ensures uncalled { IfErr result (λ fault. fault ≢ ReportFault.SinkFailed → out.new ≡ out.old) }
        ensures no_memory { IfErr result (λ fault. fault ≢ ReportFault.NoMemory) }
        ensures broken { IsErrOf result ReportFault.Broken ↔ IsTrue self.old.broken }

        ensures counts { NeverFalls (O.faults out.old) (O.faults out.new) }
        ensures told { is_some (O.taken out.new) ≡ is_some (O.taken out.old) }
    {
        let end = self.end()?;
        write_whole(out, end.as_bytes())?;
        Ok(())
    }
}
