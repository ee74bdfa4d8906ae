//! Flaws: what is wrong in a value, seen from that value.
ghost use Rattle.std.specs.Prelude.{◌≡◌, IfOk};
ghost use Rattle.np_json.specs.Shapes.{Read, Gives, or_refuse, refuse, under};
ghost use Rattle.np_json.specs.declared.path.Step.TheVariants.{Field, Item};

use crate::fault::{FaultKind, ObjectFault, ReadFault};
use crate::path::Path;
use np_base::NoMemory;
use std::alloc::Global;
use std::fmt;

/// What is wrong in a value, and where in it. It is written as `podSelector: BadSelector`.
#[derive(Debug, Drop)]
pub struct Flaw {
    /// The steps from the value to the place.
    pub path: Path,
    /// What is wrong there.
    pub kind: FaultKind,
}

/// Why a value was not read.
#[derive(Debug, Drop)]
pub enum ShapeFault {
    /// Its first flaw.
    Bad(Flaw),
    /// The system refused memory.
    NoMemory,
}

impl fmt::Display for Flaw {
    ghost use Rattle.std.specs.Prelude.{Some};
    ghost use Rattle.np_json.specs.Faults.{flaw_text};

    ghost output = { λ flaw. Some (flaw_text flaw) };

    fn fmt<W: fmt::Write>(&self, f: &mut fmt::Formatter<W>) -> fmt::Result {
        let path = &self.path;
        let kind = self.kind;
        write!(f, "{path}: {kind}")
    }
}

impl ShapeFault {
    ghost use Rattle.np_json.specs.Shapes.{IsUnder, IsFlawAt, fault_of};
    ghost use Rattle.np_json.specs.declared.path.Step.TheVariants.{Field, Item};

    /// The same fault of the item of that number in a list of objects.
    pub fn of_item(self, item: u64) -> ReadFault
        ensures { result ≡ fault_of item self }
    {
        match self {
            ShapeFault::Bad(Flaw { path, kind }) => ReadFault::Bad(ObjectFault {
                item,
                path,
                kind,
            }),
            ShapeFault::NoMemory => ReadFault::NoMemory,
        }
    }

    // This fault of a member, seen from its object.
    fn under_field(self, name: &str) -> ShapeFault
        ensures { IsUnder (Field name.now) self result }
    {
        match self {
            ShapeFault::Bad(Flaw { path, kind }) => ShapeFault::at_path(
                path.under_field(name),
                kind,
            ),
            ShapeFault::NoMemory => ShapeFault::NoMemory,
        }
    }

    // This fault of an item, seen from its list.
    fn under_item(self, place: u64) -> ShapeFault
        ensures { IsUnder (Item place) self result }
    {
        match self {
            ShapeFault::Bad(Flaw { path, kind }) => ShapeFault::at_path(
                path.under_item(place),
                kind,
            ),
            ShapeFault::NoMemory => ShapeFault::NoMemory,
        }
    }

    // The flaw at a path, if there was memory for the path.
    fn at_path(path: Result<Path, NoMemory>, kind: FaultKind) -> ShapeFault
        ensures { IsFlawAt path kind result }
    {
        match path {
            Ok(path) => ShapeFault::Bad(Flaw { path, kind }),
            Err(NoMemory) => ShapeFault::NoMemory,
        }
    }
}

impl fmt::Display for ShapeFault {
    ghost use Rattle.std.specs.Prelude.{Some};
    ghost use Rattle.np_json.specs.Faults.{shape_fault_text};

    ghost output = { λ fault. Some (shape_fault_text fault) };

    fn fmt<W: fmt::Write>(&self, f: &mut fmt::Formatter<W>) -> fmt::Result {
        match self {
            ShapeFault::Bad(flaw) => write!(f, "{flaw}"),
            ShapeFault::NoMemory => write!(f, "out of memory"),
        }
    }
}

impl std::error::Error for ShapeFault {}

impl From<NoMemory> for ShapeFault {
    ghost use Rattle.std.specs.Prelude.{◌≡◌};
    ghost use Rattle.np_json.specs.declared.flaw.ShapeFault.TheVariants as fault;

    ghost from_gives = { λ _ made. made ≡ fault.NoMemory };

    fn from(_error: NoMemory) -> ShapeFault {
        ShapeFault::NoMemory
    }
}

/// The answer of a shape that refuses the whole value.
pub fn refuse<T>(alloc: Global, kind: FaultKind) -> Result<T, ShapeFault>
    ensures { Gives result (refuse kind) }
{
    Err(ShapeFault::Bad(Flaw {
        path: Path::empty(alloc),
        kind,
    }))
}

/// What a value stands for. One that stands for nothing is refused whole, with that flaw.
pub fn or_refuse<T>(alloc: Global, found: Option<T>, kind: FaultKind) -> Result<T, ShapeFault>
    ensures { Gives result (or_refuse kind found) }
{
    match found {
        Some(value) => Ok(value),
        None => refuse(alloc, kind),
    }
}

/// What was read of a member, seen from its object: a flaw gets the member's name in front of its path. Nothing
/// is allocated unless there is a flaw.
pub fn at<T>(name: &str, read: Result<T, ShapeFault>) -> Result<T, ShapeFault>
    ensures output { IfOk read (λ output. result ≡ Ok output) }
    ensures flaw { (shape : Read T) → Gives read shape → Gives result (under (Field name.now) shape) }
{
    match read {
        Ok(output) => Ok(output),
        Err(fault) => Err(fault.under_field(name)),
    }
}

/// What was read of an item of a list, seen from the list: a flaw gets the item's place in front of its path.
/// Nothing is allocated unless there is a flaw.
pub fn at_item<T>(place: u64, read: Result<T, ShapeFault>) -> Result<T, ShapeFault>
    ensures output { IfOk read (λ output. result ≡ Ok output) }
    ensures flaw { (shape : Read T) → Gives read shape → Gives result (under (Item place) shape) }
{
    match read {
        Ok(output) => Ok(output),
        Err(fault) => Err(fault.under_item(place)),
    }
}
