//! The mentioned requirements, each once.
ghost use Rattle.std.specs.Prelude.{◌≡◌, IfOk};
ghost use Rattle.std.specs.List.{list_any};
ghost use Rattle.np_exposure.specs.Prelude.{each_once, is_same};

use crate::sided_requirement::SidedRequirement;
use np_base::NoMemory;
use std::alloc::Global;

/// The mentioned requirements, each once, in the order of first mention.
pub(crate) fn each_once(
    alloc: Global,
    mentions: Vec<SidedRequirement>,
) -> Result<Vec<SidedRequirement>, NoMemory>
    ensures { IfOk result (λ made. made.items ≡ each_once mentions.items) }
{
    let mut made = Vec::new(alloc);
    for mention in mentions {
        if !is_known(&made, &mention) {
            made.push(mention)?;
        }
    }
    Ok(made)
}

// Whether a requirement is the same as one of these.
fn is_known(made: &[SidedRequirement], mention: &SidedRequirement) -> bool
    ensures { result ≡ list_any (λ known. is_same known mention.now) made.now }
{
    made.iter().any(|known| known.is_same(mention))
}
