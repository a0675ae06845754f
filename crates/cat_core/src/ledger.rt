//! What a catalogue holds.
use cat_model::types::{Settings, State};

/// The settings and the state of a catalogue.
#[derive(Drop)]
pub struct Ledger {
    pub settings: Settings,
    pub state: State,
}
