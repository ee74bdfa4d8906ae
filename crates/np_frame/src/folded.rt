//! What the bytes of the inputs say, folded.
ghost use Rattle.std.specs.Prelude.{◌≡◌, ◌<◌, ◌≤◌, ℕ, Err, IfOk, OnOk, map};
ghost use Rattle.np_command.specs.Inputs as spec;
ghost use Rattle.np_model.specs.Prelude.{IsLawful};

use np_command::Failure;
use np_fold::Folded;
use np_model::Estate;
use np_reading::read_estate;
use std::alloc::Global;

/// What all inputs say together, or their first fault.
pub fn read_folded(alloc: Global, texts: &[Vec<u8>]) -> Result<Folded, Failure>
    ensures { spec.Gives result (spec.lists_of (map (λ text. text.items) texts.now)) }
{
    let estate = read_estate(alloc, texts)?;
    fold(alloc, estate)
}

// The estate with its workloads, unless it has too many.
#[tactic(auto, unfolding(np_command::specs::Inputs::small_estate))]
fn fold(alloc: Global, estate: Estate) -> Result<Folded, Failure>
    requires { IsLawful estate }
    ensures { spec.Gives result (spec.small_estate estate) }
{
    Ok(Folded::of(alloc, estate)?)
}
