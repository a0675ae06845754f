//! What the rows of a store come to.
use cat_model::types::{OrphanRule, State};

/// What the rows of a store stand for: the rule for orphans, which is `Keep` where none is stored, and the state. A store without
/// rows is an empty catalogue.
#[derive(Drop)]
pub struct Candidate {
    pub rule: OrphanRule,
    pub state: State,
}
