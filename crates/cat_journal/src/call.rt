//! What a keeper is asked for, and what it answered.
use cat_keeper::keeper::{Committed, Loaded};
use cat_keeper::rows::Batch;

/// What a keeper is asked for.
#[derive(Drop)]
pub enum Order {
    /// The rows.
    Load,
    /// To make the changes of a batch.
    Commit(Batch),
}

/// A call of a keeper, with its answer.
#[derive(Drop)]
pub enum Call {
    Load(Loaded),
    Commit(Batch, Committed),
}
