//! The operations on two sets.
ghost use Rattle.std.specs.Prelude.{◌≡◌, IfOk};
ghost use Rattle.np_pieces.specs.Operations.{holds_after};

use np_base::{Cells, NoMemory};

/// What is made of two sets.
#[derive(Clone, Copy, Debug, PartialEq, Eq)]
pub enum Operation {
    Join,
    Meet,
    Minus,
}

/// The set that the operation makes of two.
pub fn combine<S: Cells>(operation: Operation, first: &S, second: &S) -> Result<S, NoMemory>
    ensures members { IfOk result (λ made. (spot : S.Spot) →
        S.has made spot ≡ holds_after operation (S.has first.now spot) (S.has second.now spot)) }
    ensures well { IfOk result S.IsWell }
{
    match operation {
        Operation::Join => first.join(second),
        Operation::Meet => first.meet(second),
        Operation::Minus => first.minus(second),
    }
}
