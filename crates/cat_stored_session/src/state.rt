//! What contracts see of a session that is kept.
use cat_keeper::keeper::Place;
use cat_session_model::state::RuledSession;

/// A session under its rule for orphans, the place of the store that keeps it, and how many of its lines weren't kept, where the
/// count stays at the last value of a u64.
#[derive(Drop)]
pub struct KeptState {
    pub ruled: RuledSession,
    pub place: Place,
    pub refusals: u64,
}
