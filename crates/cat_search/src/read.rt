//! Reading a filter.
ghost use Rattle.std.specs.Prelude.{◌≡◌, ◌⊎◌, Ok, Err, IfOk, IfErr};
ghost use Rattle.cat_search.specs.Filter.{condition_of, piece_of, filter_of};

use crate::condition::{Condition, Filter, FilterFault};
use crate::pieces::{next_piece, trimmed};
use cat_tree::text::Text;
use std::alloc::{AllocError, Global};

fn condition_of(alloc: Global, piece: &str) -> Result<Condition, AllocError>
    ensures { IfOk result (λ c. c ≡ condition_of piece.now) }
{
    match piece.split_once('=') {
        Some((key, value)) => {
            let key = Text::of(alloc, key)?;
            let value = Text::of(alloc, value)?;
            Ok(Condition {
                key,
                value: Some(value),
            })
        }
        None => Ok(Condition {
            key: Text::of(alloc, piece)?,
            value: None,
        }),
    }
}

// The condition of a piece without spaces at its ends, if it has bytes.
fn piece_of(alloc: Global, place: usize, piece: &str) -> Result<Option<Condition>, FilterFault>
    ensures ok { IfOk result (λ c. piece_of place piece.now ≡ Ok c) }
    ensures err { IfErr result (λ e. (e ≡ FilterFault.NoMemory) ⊎ (piece_of place piece.now ≡ Err e)) }
{
    match piece.as_bytes() {
        [] => Ok(None),
        [b'=', ..] => Err(FilterFault::EmptyKey(place)),
        _ => Ok(Some(condition_of(alloc, piece)?)),
    }
}

/// Reads conditions `key` or `key=value` parted by commas; spaces at their ends are dropped, and empty
/// ones left out. Refused by the first condition that begins with `=`, with its place among the pieces
/// between the commas, or where memory is wanted.
pub fn read_filter(alloc: Global, text: &str) -> Result<Filter, FilterFault>
    ensures ok { IfOk result (λ f. filter_of text.now ≡ Ok f) }
    ensures err { IfErr result (λ e. (e ≡ FilterFault.NoMemory) ⊎ (filter_of text.now ≡ Err e)) }
{
    let mut conditions = Vec::new(alloc);
    let mut rest = text;
    let mut place = 0;
    loop {
        let (piece, more) = next_piece(rest, ',');
        if let Some(condition) = piece_of(alloc, place, trimmed(piece))? {
            conditions.push(condition)?;
        }
        match more {
            Some(after) => {
                rest = after;
                place += 1;
            }
            None => return Ok(Filter::from_vec(conditions)),
        }
    }
}
