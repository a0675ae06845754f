//! Why a call is refused.
use cat_model::types::Counter;
use thiserror::Error;

/// A refusal. Where several hold the first is answered, but want of memory may come in place of `TooLarge` and `Spent`.
#[derive(Clone, Copy, Debug, Drop, Error)]
pub enum CoreFault {
    /// The serial is below the provider's last one, which is this.
    #[error("the serial is below {0}")]
    OldSerial(u64),
    /// There is nothing of that name, reference or number.
    #[error("not found")]
    NotFound,
    /// The stored input bytes would be as many as this, which is above the limit.
    #[error("the inputs would have {0} bytes")]
    TooLarge(u64),
    /// A counter would pass its bound.
    #[error("the counter {0} is spent")]
    Spent(Counter),
    /// What would change couldn't be kept: the keeper failed. Only a catalogue that is kept in a store is refused so.
    #[error("the keeper failed")]
    Keeper,
    /// Want of memory.
    #[error("out of memory")]
    NoMemory,
}

/// A settle that was cut: exactly its first events stand, as many as this says.
#[derive(Clone, Copy, Debug, Drop, Error)]
#[error("the settle was cut after {events} events: {fault}")]
pub struct Cut {
    pub events: u64,
    pub fault: CoreFault,
}
