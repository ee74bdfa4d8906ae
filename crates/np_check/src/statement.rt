//! A statement, with its ends found.
ghost use Rattle.std.specs.Prelude.{◌≡◌, true};
ghost use Rattle.np_check.specs.Numbers.{IsOneSided, is_ascending};

use crate::question::Question;

/// A statement: what it asks. That the numbers of the workloads ascend is kept by the type.
#[derive(Drop)]
pub struct Statement {
    pub question: Question,
    ghost sources: { is_ascending question.source.works ≡ true },
    ghost destinations: { is_ascending question.destination.works ≡ true },
}

impl Statement {
    /// The statement that asks this. The numbers of the workloads ascend, and one of the two sides has no addresses. It takes
    /// no memory.
    pub fn new(question: Question) -> Statement
        requires sources { is_ascending question.source.works ≡ true }
        requires destinations { is_ascending question.destination.works ≡ true }
        requires one_side { IsOneSided question.source.block question.destination.block }
        ensures { result.question ≡ question }
    {
        Statement { question }
    }
}
