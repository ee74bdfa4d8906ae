//! Where a value stands in an object.
ghost use Rattle.std.specs.Prelude.{◌≡◌, [], ◌∷◌, ◌++◌, IfOk};
ghost use Rattle.np_json.specs.declared.path.Step.TheVariants.{Field, Item};
ghost use Rattle.std.specs.Fmt.{WritesOnOk};
ghost use Rattle.std.specs.List.{flat_map};
ghost use Rattle.np_json.specs.Paths.{path_text, further_text};

use np_base::{NoMemory, Seq, Text, TryCopy};
use std::alloc::Global;
use std::fmt;
use std::marker::Model;

/// One step into a value: to a member of an object by its name, or to an item of a list by its place, from 0.
#[derive(Debug, Drop)]
pub enum Step {
    Field(Text),
    Item(u64),
}

impl TryCopy for Step {
    fn try_copy(&self, _alloc: Global) -> Result<Step, NoMemory> {
        match self {
            Step::Field(name) => Ok(Step::Field(name.copy()?)),
            Step::Item(place) => Ok(Step::Item(*place)),
        }
    }
}

/// The steps from a value to a part of it, the outermost first. Contracts see it as the list of its steps.
#[derive(Debug, Drop)]
pub struct Path {
    pub steps: Seq<Step>,
}

impl Model for Path {
    ghost use Rattle.std.specs.Prelude.{List};
    ghost use Rattle.np_json.specs.declared.path.Step.{Step};

    ghost Value = { List Step };

    ghost view = { λ p. p.steps };
}

impl Path {
    /// The path of no step, which is that of the whole value. It takes no memory.
    pub fn empty(alloc: Global) -> Path
        ensures { result ≡ [] }
    {
        Path {
            steps: Seq::new(alloc),
        }
    }

    /// This path and then a member of that name.
    pub fn field(&self, name: &str) -> Result<Path, NoMemory>
        ensures { IfOk result (λ made. made ≡ self.now ++ Field name.now ∷ []) }
    {
        let name = Text::of(self.steps.allocator(), name)?;
        self.then(Step::Field(name))
    }

    /// This path and then the item at a place, from 0.
    pub fn item(&self, n: u64) -> Result<Path, NoMemory>
        ensures { IfOk result (λ made. made ≡ self.now ++ Item n ∷ []) }
    {
        self.then(Step::Item(n))
    }

    // This path and then one step more.
    fn then(&self, step: Step) -> Result<Path, NoMemory>
        ensures { IfOk result (λ made. made ≡ self.now ++ step ∷ []) }
    {
        let mut steps = self.steps.try_copy(self.steps.allocator())?;
        steps.push(step)?;
        Ok(Path { steps })
    }

    /// A member of that name and then this path.
    pub fn under_field(self, name: &str) -> Result<Path, NoMemory>
        ensures { IfOk result (λ made. made ≡ Field name.now ∷ self) }
    {
        let name = Text::of(self.steps.allocator(), name)?;
        self.under(Step::Field(name))
    }

    /// The item at a place, from 0, and then this path.
    pub fn under_item(self, n: u64) -> Result<Path, NoMemory>
        ensures { IfOk result (λ made. made ≡ Item n ∷ self) }
    {
        self.under(Step::Item(n))
    }

    // One step and then this path.
    fn under(self, step: Step) -> Result<Path, NoMemory>
        ensures { IfOk result (λ made. made ≡ step ∷ self) }
    {
        let Path { steps } = self;
        let mut steps = steps.into_vec();
        steps.insert(0, step)?;
        Ok(Path {
            steps: Seq::from_vec(steps),
        })
    }

    /// The member names joined by `.`, with the place of an item as `[n]` after its list. The empty path is
    /// `(whole)`.
    pub fn text(&self) -> Result<Text, NoMemory>
        ensures { IfOk result (λ made. made ≡ path_text self.now) }
    {
        Ok(Text::from_string(format!(in self.steps.allocator(); "{self}")?))
    }
}

impl fmt::Display for Path {
    ghost use Rattle.std.specs.Prelude.{Some};
    ghost use Rattle.np_json.specs.Paths.{path_text};

    ghost output = { λ p. Some (path_text p) };

    fn fmt<W: fmt::Write>(&self, f: &mut fmt::Formatter<W>) -> fmt::Result {
        match self.steps.items().split_first() {
            None => write!(f, "(whole)"),
            Some((first, rest)) => {
                write!(f, "{first}")?;
                write_further(f, rest)
            }
        }
    }
}

// Writes steps that stand after another.
fn write_further<W: fmt::Write>(f: &mut fmt::Formatter<W>, steps: &[Step]) -> fmt::Result
    ensures { WritesOnOk W.write_str_gives f.old result (flat_map further_text steps.now) f.new }
{
    for step in steps {
        match step {
            Step::Field(name) => write!(f, ".{name}")?,
            Step::Item(place) => write!(f, "[{place}]")?,
        }
    }
    Ok(())
}

impl fmt::Display for Step {
    ghost use Rattle.std.specs.Prelude.{Some};
    ghost use Rattle.np_json.specs.Paths.{first_text};

    ghost output = { λ step. Some (first_text step) };

    fn fmt<W: fmt::Write>(&self, f: &mut fmt::Formatter<W>) -> fmt::Result {
        match self {
            Step::Field(name) => write!(f, "{name}"),
            Step::Item(place) => write!(f, "[{place}]"),
        }
    }
}
