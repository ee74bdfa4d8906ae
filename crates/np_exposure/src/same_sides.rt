//! Sides of pods that are the same.
ghost use Rattle.std.specs.Prelude.{◌≡◌, ◌<◌, length};
ghost use Rattle.std.specs.Bool.{OnTrue};
ghost use Rattle.np_exposure.specs.Prelude.{mentions, rows_of};
ghost use Rattle.np_rules.specs.Prelude.{side_of};

use np_model::{Direction, Estate};

/// Whether two pods, which are named by their places in the estate, have the same side in a direction. Then the same requirements
/// are mentioned of both, and they have the same rows. Sides of which it says no may have these, too.
pub fn is_same_side(estate: &Estate, pod: u32, other: u32, direction: Direction) -> bool
    requires pod { pod < length estate.now.pods }
    requires other { other < length estate.now.pods }
    ensures mentions { OnTrue result
        (mentions (side_of estate.now pod direction) ≡ mentions (side_of estate.now other direction)) }
    ensures rows { OnTrue result
        (rows_of (side_of estate.now pod direction) ≡ rows_of (side_of estate.now other direction)) }
{
    np_rules::is_same_side(estate, pod, other, direction)
}
