//! Lists of pieces that grow at the end.
ghost use Rattle.std.specs.Prelude.{◌≡◌, ◌++◌, ◌∷◌, [], IfOk, OnOk};
ghost use Rattle.np_pieces.specs.Prelude.{IsWith};

use crate::piece::Piece;
use np_base::{Cells, NoMemory, Point};

/// Puts a piece last. Where its value is that of the last piece, the two become one.
pub fn append<P: Point, S: Cells>(
    made: &mut Vec<Piece<P, S>>,
    next: Piece<P, S>,
) -> Result<(), NoMemory>
    ensures { OnOk result (IsWith P.number_of S.IsWell made.old.items next made.new.items) }
{
    let last = grown(made, next)?;
    made.push(last)?;
    Ok(())
}

// The last piece, taken off and widened by the next one where their values are the same. Else the next one.
fn grown<P: Point, S: Cells>(
    made: &mut Vec<Piece<P, S>>,
    next: Piece<P, S>,
) -> Result<Piece<P, S>, NoMemory>
    ensures { IfOk result (λ last. IsWith P.number_of S.IsWell
        made.old.items next (made.new.items ++ last ∷ [])) }
{
    let Some(last) = made.pop() else {
        return Ok(next);
    };
    if last.value.same(&next.value) {
        return Ok(Piece {
            lo: last.lo,
            hi: next.hi,
            value: last.value,
        });
    }
    made.push(last)?;
    Ok(next)
}
