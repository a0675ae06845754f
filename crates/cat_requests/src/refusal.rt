//! Why a request is refused.
ghost use Rattle.std.specs.Prelude.{◌≡◌};
ghost use Rattle.cat_requests.specs.Refusals.{input_refusal, query_refusal};

use cat_feed::change::Since;
use cat_inputs::fault::InputFault;
use cat_model::types::Counter;
use cat_query::fault::QueryFault;
use std::alloc::{AllocError, AllocFailed};

/// The methods of a path.
#[derive(Clone, Copy, Debug, Drop, PartialEq, Eq)]
pub enum Methods {
    /// GET and HEAD.
    Reads,
    /// GET, HEAD and DELETE.
    ReadsAndDeletes,
    /// POST.
    Posts,
    /// PUT and DELETE.
    PutsAndDeletes,
}

/// Why a request is refused.
#[derive(Clone, Copy, Drop)]
pub enum Refusal {
    /// A browser sends the message, and its page may not ask this here.
    Origin,
    /// No path fits, or a piece of the path is no text.
    Route,
    /// The path has other methods.
    Method(Methods),
    /// There is no entity so named, or the name is malformed.
    Entity,
    /// Nothing is on the shelf under this name.
    Shelf,
    /// The name of a provider or on the shelf is malformed, missing, or stands twice.
    Name,
    /// The body is no UTF-8.
    Text,
    /// This text of a list, counted from 0, names no entity.
    Reference(usize),
    /// The body isn't what is asked for.
    Input(InputFault),
    /// The parameters are no query.
    Query(QueryFault),
    /// The query names no facet.
    Facet,
    /// The place from which changes are asked is malformed, or stands twice.
    Place,
    /// The place isn't kept any more; the first place that is.
    Gone(Since),
    /// The place wasn't reached yet; the feed's place.
    Ahead(Since),
    /// The serial is below the last one.
    OldSerial(u64),
    /// The stored input would have so many bytes.
    TooLarge(u64),
    /// The counter is at its end.
    Spent(Counter),
    /// A settle was cut after so many events, where the counter is at its end.
    CutByCounter(u64, Counter),
    /// A settle was cut after so many events, for want of memory.
    CutByMemory(u64),
    /// A settle was cut after so many events, since what follows them couldn't be kept.
    CutByKeeper(u64),
    /// The feed has no numbers left.
    SpentFeed,
    /// The desk answered what isn't asked of it.
    Reply,
    /// What would change couldn't be kept: the keeper failed.
    Keeper,
    /// Want of memory.
    NoMemory,
}

/// The refusal of a body that isn't what is asked for.
pub fn input_refusal(fault: InputFault) -> Refusal
    ensures { result ≡ input_refusal fault }
{
    match fault {
        InputFault::NoMemory => Refusal::NoMemory,
        _ => Refusal::Input(fault),
    }
}

/// The refusal of parameters that are no query.
pub fn query_refusal(fault: QueryFault) -> Refusal
    ensures { result ≡ query_refusal fault }
{
    match fault {
        QueryFault::NoMemory => Refusal::NoMemory,
        _ => Refusal::Query(fault),
    }
}

impl From<AllocError> for Refusal {
    ghost use Rattle.std.specs.Prelude.{◌≡◌};
    ghost use Rattle.cat_requests.specs.declared.refusal.Refusal.TheVariants.{NoMemory};

    ghost from_gives = { λ _ e. e ≡ NoMemory };

    fn from(_refused: AllocError) -> Refusal {
        Refusal::NoMemory
    }
}

impl<T: Drop> From<AllocFailed<T>> for Refusal {
    ghost use Rattle.std.specs.Prelude.{◌≡◌};
    ghost use Rattle.cat_requests.specs.declared.refusal.Refusal.TheVariants.{NoMemory};

    ghost from_gives = { λ _ e. e ≡ NoMemory };

    fn from(_refused: AllocFailed<T>) -> Refusal {
        Refusal::NoMemory
    }
}
