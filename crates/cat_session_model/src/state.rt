//! What contracts see of a session.
use cat_collections::listing::Listing;
use cat_collections::map::Map;
use cat_model::types::{Order, OrphanRule, State, StitchOrder};

/// The catalogue's state, the moment in milliseconds, the orders that were handed out, the oldest first, and the stitch orders
/// that were handed out, by ticket.
#[derive(Drop)]
pub struct SessionState {
    pub state: State,
    pub now: u64,
    pub orders: Listing<Order>,
    pub stitches: Map<u64, StitchOrder>,
}

/// A session, and the rule for orphans under which it runs.
#[derive(Drop)]
pub struct RuledSession {
    pub orphans: OrphanRule,
    pub session: SessionState,
}
