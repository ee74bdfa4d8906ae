//! What the side of a pod looks at, by the far end.
ghost use Rattle.std.specs.Prelude.{◌≡◌, ◌<◌, length};
ghost use Rattle.np_rules.specs.model.Ends.{contact};
ghost use Rattle.np_rules.specs.OneEnd.{one_contact};
ghost use Rattle.np_rules.specs.Prelude.{end_view, pod_at, pod_view};

use crate::one_end::OneEnd;
use crate::views::{EndView, PodView, view_of_pod};
use np_addr::Family;
use np_model::{Direction, Estate};

/// The pod at a place of the estate.
pub(crate) fn view_at(estate: &Estate, place: u32) -> PodView<'_>
    requires { place < length estate.now.pods }
    ensures { pod_view result ≡ pod_at estate.now place }
{
    view_of_pod(&estate.pods()[place as usize])
}

/// What the side of a pod looks at between two ends, in packets of a family.
pub(crate) fn between<'a>(
    direction: Direction,
    near: &'a EndView<'a>,
    far: &'a EndView<'a>,
    family: Family,
) -> OneEnd<'a>
    ensures { one_contact result ≡ contact direction (end_view near.now) (end_view far.now) family }
{
    match direction {
        Direction::Ingress => OneEnd {
            far,
            destination: near,
            family,
        },
        Direction::Egress => OneEnd {
            far,
            destination: far,
            family,
        },
    }
}
