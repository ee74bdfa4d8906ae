//! The status that the program ends with.
ghost use Rattle.std.specs.Prelude.{◌≡◌};
ghost use Rattle.np_command.specs.Statuses.{code_of};

/// The status of the program. Its exit code, by [`Status::code`], is the number beside each.
#[derive(Clone, Copy, PartialEq, Eq)]
pub enum Status {
    /// 0: the report was written whole.
    Done,
    /// 1: the inputs are refused, or a statement, or an end that the words name.
    Refused,
    /// 2: the words of the command line ask for nothing.
    Usage,
    /// 3: an input could not be read, or the report not written.
    Device,
    /// 4: out of memory.
    NoMemory,
    /// 5: the report was written whole, and says that a statement of `check` does not hold.
    Violated,
}

impl Status {
    /// Its exit code.
    pub fn code(self) -> u8
        ensures { result ≡ code_of self }
    {
        match self {
            Status::Done => 0,
            Status::Refused => 1,
            Status::Usage => 2,
            Status::Device => 3,
            Status::NoMemory => 4,
            Status::Violated => 5,
        }
    }
}
