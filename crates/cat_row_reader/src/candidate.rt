//! From the rows of a store to its candidate.
ghost use Rattle.std.specs.Prelude.{◌≡◌, [], IfOk, IfSome, MatchOption, Ok, Some};
ghost use Rattle.cat_row_reader.specs.Candidate.{IsCandidate};
ghost use Rattle.cat_row_reader.specs.Read.{AreNoTexts};
ghost use Rattle.cat_row_reader.specs.Start.{IsAtStart, empty_candidate};

use crate::read::read_rows;
use crate::state::{empty_state, rule_of, state_of};
use crate::types::Candidate;
use cat_keeper::rows::StoredRows;
use cat_model::types::OrphanRule;
use std::alloc::{AllocError, Global};

fn empty_catalogue(alloc: Global) -> Candidate
    ensures { result ≡ empty_candidate }
{
    Candidate {
        rule: OrphanRule::Keep,
        state: empty_state(alloc),
    }
}

/// What the texts of a store stand for; none where some of them spell no row. No rows are an empty catalogue. Every record of the
/// state is due at once; there are no leases, no marks and no documents, and tokens and tickets start at 1.
pub fn candidate(alloc: Global, texts: &StoredRows) -> Result<Option<Candidate>, AllocError>
    ensures start { IfOk result (λ o. IfSome o (λ c. IsAtStart c.state)) }
    ensures empty { texts.now ≡ [] → result ≡ Ok (Some empty_candidate) }
    ensures read { IfOk result (λ o. MatchOption o (AreNoTexts texts.now) (IsCandidate texts.now)) }
{
    if texts.is_empty() {
        return Ok(Some(empty_catalogue(alloc)));
    }
    match read_rows(alloc, texts)? {
        None => Ok(None),
        Some(rows) => Ok(Some(Candidate {
            rule: rule_of(rows.as_slice()),
            state: state_of(alloc, rows.as_slice())?,
        })),
    }
}
