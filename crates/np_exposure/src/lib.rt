//! What a pod that nobody has written yet could reach, and be reached by.
//!
//! Such a pod has any namespace, any labels of it under which `kubernetes.io/metadata.name` is its name, and any labels of
//! its own. What the side of a listed pod allows it is the same for all that meet the same requirements, and a list of
//! rows says for which requirements it is what.
#![tactic(auto)]

mod asked_rule;
mod choices;
mod exposure_fault;
mod exposure_row;
mod exposures;
mod key_set;
mod known;
mod labels;
mod laws;
mod mentioned_key;
mod mentions;
mod only_namespace;
mod open_row;
mod open_rules;
mod peer_keys;
mod peer_text;
mod pending;
mod requirements;
mod same_sides;
mod side;
mod sided_requirement;
mod step;
mod walk;
mod weights;
mod witness;

pub use exposure_fault::ExposureFault;
pub use exposure_row::ExposureRow;
pub use exposures::{MOST_PATTERNS, exposure};
pub use laws::{
    alike_strangers_have_one_exposure, each_row_is_first_for_some, first_row_tells,
    one_list_of_rows, one_text_has_one_peer, possible_assumptions_are_told,
    requirements_of_read_policies_are_well, rows_are_few, rows_can_be_told,
};
pub use peer_text::print_peer;
pub use same_sides::is_same_side;
pub use side::Side;
pub use sided_requirement::SidedRequirement;
pub use weights::weight;
