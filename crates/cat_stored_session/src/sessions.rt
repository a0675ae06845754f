//! Sessions over one store, one after the other.
ghost use Rattle.std.specs.Prelude.{◌≡◌, IfOk, map};
ghost use Rattle.cat_stored_session.specs.Sittings.{HasSat, HaveSat};

use crate::{Ran, run_stored};
use cat_collections::listing::Copied;
use cat_connection::Status;
use cat_io::{MemorySource, Sink};
use cat_keeper::keeper::{Keeper, Place};
use cat_model::types::OrphanRule;
use std::alloc::{AllocError, Global};

/// How many bytes of an input are read at once.
const PIECE: u64 = 65_536;

fn copied(alloc: Global, place: &Place) -> Result<Place, AllocError>
    ensures { IfOk result (λ p. p ≡ place.now) }
{
    match place {
        Place::Nowhere => Ok(Place::Nowhere),
        Place::File(name) => Ok(Place::File(name.duplicate(alloc)?)),
        Place::Journal(name) => Ok(Place::Journal(name.duplicate(alloc)?)),
    }
}

// A source of these bytes, whose reads don't fail.
fn source_of(alloc: Global, input: &[u8]) -> Result<MemorySource, AllocError>
    ensures { IfOk result (λ source. source.left ≡ input.now) }
{
    let bytes = input.to_vec(alloc)?;
    Ok(MemorySource::new(bytes, PIECE, Vec::new(alloc)))
}

// A copy of the place, and the source.
fn given(alloc: Global, place: &Place, input: &[u8]) -> Result<(Place, MemorySource), AllocError>
    ensures place { IfOk result (λ x. x.0 ≡ place.now) }
    ensures source { IfOk result (λ x. x.1.left ≡ input.now) }
{
    let place = copied(alloc, place)?;
    let source = source_of(alloc, input)?;
    Ok((place, source))
}

// The session over what a source has.
fn over<O: Sink, K: Keeper>(
    alloc: Global,
    orphans: Option<OrphanRule>,
    place: Place,
    keeper: K,
    source: MemorySource,
    sink: &mut O,
) -> Ran<K>
    ensures { HasSat place orphans source.left
        (record { rows = K.tables place keeper; faults = K.faults keeper; written = O.written sink.old; sink_faults = O.faults sink.old }) result.status
        (record { rows = K.tables place result.keeper; faults = K.faults result.keeper; written = O.written sink.new; sink_faults = O.faults sink.new }) }
{
    let mut source = source;
    run_stored(alloc, orphans, place, keeper, &mut source, sink)
}

// The session over an input.
fn sitting<O: Sink, K: Keeper>(
    alloc: Global,
    orphans: Option<OrphanRule>,
    place: &Place,
    keeper: K,
    input: &[u8],
    sink: &mut O,
) -> Ran<K>
    ensures { HasSat place.now orphans input.now
        (record { rows = K.tables place.now keeper; faults = K.faults keeper; written = O.written sink.old; sink_faults = O.faults sink.old }) result.status
        (record { rows = K.tables place.now result.keeper; faults = K.faults result.keeper; written = O.written sink.new; sink_faults = O.faults sink.new }) }
{
    match given(alloc, place, input) {
        Ok((place, source)) => over(alloc, orphans, place, keeper, source, sink),
        Err(_) => Ran {
            status: Status::NoMemory,
            keeper,
        },
    }
}

/// Answers the lines of the inputs over the store that the keeper has at a place, under this rule for orphans or else under the stored
/// one: a session for each input, over what the one before left, with one keeper and one sink. The status is `Whole` where all were answered, and
/// otherwise that of the first session that didn't end whole, as `run_stored` has it; the inputs behind it aren't looked at.
pub fn sittings<O: Sink, K: Keeper>(
    alloc: Global,
    orphans: Option<OrphanRule>,
    place: &Place,
    keeper: K,
    inputs: &[&[u8]],
    sink: &mut O,
) -> Ran<K>
    ensures { HaveSat place.now orphans (map (λ b. b.now) inputs.now)
        (record { rows = K.tables place.now keeper; faults = K.faults keeper; written = O.written sink.old; sink_faults = O.faults sink.old }) result.status
        (record { rows = K.tables place.now result.keeper; faults = K.faults result.keeper; written = O.written sink.new; sink_faults = O.faults sink.new }) }
{
    match inputs.split_first() {
        None => Ran {
            status: Status::Whole,
            keeper,
        },
        Some((input, others)) => {
            let ran = sitting(alloc, orphans, place, keeper, input, sink);
            match ran.status {
                Status::Whole => sittings(alloc, orphans, place, ran.keeper, others, sink),
                _ => ran,
            }
        }
    }
}
