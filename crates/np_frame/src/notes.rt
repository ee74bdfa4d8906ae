//! What is said of a whole report.
ghost use Rattle.std.specs.Prelude.{◌≡◌, IfOk, string_bytes};
ghost use Rattle.np_frame.specs.NoteTexts as spec;

use np_base::{NoMemory, Seq};
use np_model::Notes;
use np_routes::RouteNote;
use std::alloc::Global;
use std::fmt;
use std::marker::Model;

/// What is said of a whole report: how many objects were left out of it, and which backends of Ingresses lead nowhere, or
/// not where they seem to, in the order of the Ingresses.
#[derive(Drop)]
pub struct ReportNotes {
    pub left_out: Notes,
    pub routes: Seq<RouteNote>,
}

impl ReportNotes {
    ghost use Rattle.std.specs.Prelude.{◌≡◌, IfOk, string_bytes};
    ghost use Rattle.np_frame.specs.NoteTexts.{notes_text};

    /// The lines of the notes: those of the objects first, each where its number is not 0.
    pub fn text(&self, alloc: Global) -> Result<String, NoMemory>
        ensures { IfOk result (λ text. string_bytes text ≡ notes_text self.now) }
    {
        let left_out = LeftOut {
            notes: self.left_out,
        };
        let mut text = format!(in alloc; "{left_out}")?;
        for note in self.routes.items() {
            text.push_str(route_line(alloc, note)?.as_str())?;
        }
        Ok(text)
    }
}

/// The notes on a report, with their lines made, so that no memory is wanted for them once the report is written. Contracts
/// see of it the notes.
#[derive(Drop)]
pub struct PreparedNotes {
    notes: ReportNotes,
    text: String,
}

impl Model for PreparedNotes {
    ghost use Rattle.std.specs.Prelude.{◌≡◌, string_bytes};
    ghost use Rattle.np_frame.specs.NoteTexts.{notes_text};
    ghost use Rattle.np_frame.specs.declared.notes.ReportNotes.{ReportNotes};

    ghost Value = { ReportNotes };

    ghost view = { λ s. s.notes };

    ghost invariant = { λ s. string_bytes s.text ≡ notes_text s.notes };
}

impl PreparedNotes {
    ghost use Rattle.std.specs.Prelude.{◌≡◌, IfOk};
    ghost use Rattle.np_frame.specs.NoteTexts.{notes_text};

    /// Makes the lines of these notes.
    pub fn of(alloc: Global, notes: ReportNotes) -> Result<PreparedNotes, NoMemory>
        ensures { IfOk result (λ made. made ≡ notes) }
    {
        let text = notes.text(alloc)?;
        Ok(PreparedNotes { notes, text })
    }

    /// The lines of the notes.
    pub fn text(&self) -> &str
        ensures { result.now ≡ notes_text self.now }
    {
        self.text.as_str()
    }
}

// The line of a backend of an Ingress.
fn route_line(alloc: Global, note: &RouteNote) -> Result<String, NoMemory>
    ensures { IfOk result (λ line. string_bytes line ≡ spec.route_line note.now) }
{
    Ok(format!(in alloc; "note: {note}\n")?)
}

// The lines of what was left out.
#[derive(Clone, Copy)]
struct LeftOut {
    notes: Notes,
}

impl fmt::Display for LeftOut {
    ghost use Rattle.std.specs.Prelude.{Some};
    ghost use Rattle.np_frame.specs.NoteTexts.{left_out_text};

    ghost output = { λ text. Some (left_out_text text.notes) };

    fn fmt<W: fmt::Write>(&self, f: &mut fmt::Formatter<W>) -> fmt::Result {
        let host = Note {
            what: "host network pods left out",
            count: self.notes.host,
        };
        let finished = Note {
            what: "finished pods left out",
            count: self.notes.finished,
        };
        let skipped = Note {
            what: "objects of other kinds skipped",
            count: self.notes.skipped,
        };
        let unaddressed = Note {
            what: "pods without an address, matched by no networks peer",
            count: self.notes.unaddressed,
        };
        write!(f, "{host}{finished}{skipped}{unaddressed}")
    }
}

// The line that says of how many objects something holds, which is no text where it holds of none.
#[derive(Clone, Copy)]
struct Note {
    what: &'static str,
    count: u64,
}

impl fmt::Display for Note {
    ghost use Rattle.std.specs.Prelude.{Some};
    ghost use Rattle.np_frame.specs.NoteTexts.{note};

    ghost output = { λ line. Some (note line.what.now line.count) };

    #[tactic(auto, unfolding(crate::specs::NoteTexts::note))]
    fn fmt<W: fmt::Write>(&self, f: &mut fmt::Formatter<W>) -> fmt::Result {
        if self.count == 0 {
            return Ok(());
        }
        writeln!(f, "note: {}: {}", self.what, self.count)
    }
}
