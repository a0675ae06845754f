//! Queries, by one definition that computes the answer.
ghost use Rattle.std.specs.Prelude.{◌≡◌, ◌⊎◌, IfOk, IfErr, Ok, Err};
ghost use Rattle.cat_session_lines.specs.Queries as spec;

use cat_pages::query::Query;
use cat_query::fault::QueryFault;
use cat_query::read::read_query;
use std::alloc::Global;

/// The query that a text is.
pub fn query_of(alloc: Global, text: &str) -> Result<Query, QueryFault>
    ensures ok { IfOk result (λ q. spec.query_of text.now ≡ Ok q) }
    ensures err { IfErr result (λ e. (spec.query_of text.now ≡ Err e) ⊎ (e ≡ QueryFault.NoMemory)) }
{
    read_query(alloc, text)
}
