//! Reading a query.
ghost use Rattle.std.specs.Prelude.{◌≡◌, ◌⊎◌, ◌≤◌, Ok, Err, IfOk, IfErr, codes};
ghost use Rattle.cat_query.specs.Cursor.{CursorIs, HasNoCursor, IsBadCursor};
ghost use Rattle.cat_query.specs.Query.{asked_of, fields_of, filters_from, limit_among, order_among, parameters_of, values_named, with_limit, with_order};
ghost use Rattle.cat_query.specs.SeenQuery.{asked};

use crate::cursor::cursor;
use crate::fault::QueryFault;
use crate::parameters::{parameters, values_named};
use crate::parts::{copies, fields, filters, limit, order};
use cat_collections::listing::Listing;
use cat_pages::query::{Cursor, OrderBy, Query};
use cat_search::condition::Filter;
use cat_tree::text::Text;
use std::alloc::{AllocError, Global};

fn filters_in(alloc: Global, parameters: &[(Text, Text)]) -> Result<Listing<Filter>, QueryFault>
    ensures ok { IfOk result (λ fs. filters_from 0 (values_named (codes "filter") parameters.now) ≡ Ok fs) }
    ensures err { IfErr result (λ e. (e ≡ QueryFault.NoMemory)
        ⊎ (filters_from 0 (values_named (codes "filter") parameters.now) ≡ Err e)) }
{
    let texts = values_named(alloc, "filter", parameters)?;
    filters(alloc, texts.as_slice())
}

fn order_in(alloc: Global, parameters: &[(Text, Text)]) -> Result<Option<OrderBy>, QueryFault>
    ensures ok { IfOk result (λ o. order_among (values_named (codes "orderField") parameters.now) ≡ Ok o) }
    ensures err { IfErr result (λ e. (e ≡ QueryFault.NoMemory)
        ⊎ (order_among (values_named (codes "orderField") parameters.now) ≡ Err e)) }
{
    let texts = values_named(alloc, "orderField", parameters)?;
    order(alloc, texts.as_slice())
}

fn limit_in(alloc: Global, parameters: &[(Text, Text)]) -> Result<u64, QueryFault>
    ensures ok { IfOk result (λ n. limit_among (values_named (codes "limit") parameters.now) ≡ Ok n) }
    ensures range { IfOk result (λ n. (1 ≤ n) × (n ≤ 1000)) }
    ensures err { IfErr result (λ e. (e ≡ QueryFault.NoMemory)
        ⊎ (limit_among (values_named (codes "limit") parameters.now) ≡ Err e)) }
{
    let texts = values_named(alloc, "limit", parameters)?;
    limit(texts.as_slice())
}

fn cursor_in(alloc: Global, parameters: &[(Text, Text)]) -> Result<Option<Cursor>, QueryFault>
    ensures ok { IfOk result (λ c. CursorIs (values_named (codes "cursor") parameters.now) c) }
    ensures err { IfErr result (λ e. (e ≡ QueryFault.NoMemory)
        ⊎ ((e ≡ QueryFault.BadCursor) × HasNoCursor (values_named (codes "cursor") parameters.now))) }
{
    let texts = values_named(alloc, "cursor", parameters)?;
    cursor(alloc, texts.as_slice())
}

fn fields_in(
    alloc: Global,
    parameters: &[(Text, Text)],
) -> Result<Listing<Listing<Text>>, AllocError>
    ensures { IfOk result (λ fs. fs ≡ fields_of (values_named (codes "fields") parameters.now)) }
{
    let texts = values_named(alloc, "fields", parameters)?;
    fields(alloc, texts.as_slice())
}

fn facets_in(alloc: Global, parameters: &[(Text, Text)]) -> Result<Listing<Text>, AllocError>
    ensures { IfOk result (λ ts. ts ≡ values_named (codes "facet") parameters.now) }
{
    let texts = values_named(alloc, "facet", parameters)?;
    copies(alloc, texts.as_slice())
}

// With the fields, the facets and the limit.
fn with_limit(
    alloc: Global,
    parameters: &[(Text, Text)],
    filters: Listing<Filter>,
    order: Option<OrderBy>,
) -> Result<Query, QueryFault>
    ensures ok { IfOk result (λ q. with_limit parameters.now filters order
        (limit_among (values_named (codes "limit") parameters.now)) ≡ Ok (asked q)) }
    ensures err { IfErr result (λ e. (e ≡ QueryFault.NoMemory)
        ⊎ (with_limit parameters.now filters order
        (limit_among (values_named (codes "limit") parameters.now)) ≡ Err e)) }
{
    let limit = limit_in(alloc, parameters)?;
    let fields = fields_in(alloc, parameters)?;
    let facets = facets_in(alloc, parameters)?;
    Ok(Query {
        filters,
        fields,
        facets,
        order,
        limit,
        cursor: None,
    })
}

// With the order, and then the limit.
fn with_order(
    alloc: Global,
    parameters: &[(Text, Text)],
    filters: Listing<Filter>,
) -> Result<Query, QueryFault>
    ensures ok { IfOk result (λ q. with_order parameters.now filters
        (order_among (values_named (codes "orderField") parameters.now)) ≡ Ok (asked q)) }
    ensures err { IfErr result (λ e. (e ≡ QueryFault.NoMemory)
        ⊎ (with_order parameters.now filters
        (order_among (values_named (codes "orderField") parameters.now)) ≡ Err e)) }
{
    let order = order_in(alloc, parameters)?;
    with_limit(alloc, parameters, filters, order)
}

// What the parameters ask for, without the cursor.
fn asked(alloc: Global, parameters: &[(Text, Text)]) -> Result<Query, QueryFault>
    ensures ok { IfOk result (λ q. asked_of parameters.now ≡ Ok (asked q)) }
    ensures err { IfErr result (λ e. (e ≡ QueryFault.NoMemory) ⊎ (asked_of parameters.now ≡ Err e)) }
{
    let filters = filters_in(alloc, parameters)?;
    with_order(alloc, parameters, filters)
}

/// Reads a query from the text of a form (URL Standard, section 5): `filter` and `facet` may stand any
/// number of times, and so may `fields`, each adding to the others; `orderField`, `limit` and `cursor`
/// at most once. Others are ignored. It is refused by the first of these that holds: a condition
/// without a key, a bad order, a bad limit, a bad cursor.
pub fn read_query(alloc: Global, text: &str) -> Result<Query, QueryFault>
    ensures ok { IfOk result (λ q. asked_of (parameters_of text.now) ≡ Ok (asked q)) }
    ensures cursor { IfOk result (λ q. CursorIs (values_named (codes "cursor") (parameters_of text.now)) q.cursor) }
    ensures err { IfErr result (λ e. (e ≡ QueryFault.NoMemory)
        ⊎ (asked_of (parameters_of text.now) ≡ Err e)
        ⊎ IsBadCursor (parameters_of text.now) e) }
{
    let parameters = parameters(alloc, text)?;
    let query = asked(alloc, parameters.as_slice())?;
    with_cursor(alloc, parameters.as_slice(), query)
}

// The query with its cursor.
fn with_cursor(
    alloc: Global,
    parameters: &[(Text, Text)],
    query: Query,
) -> Result<Query, QueryFault>
    ensures same { IfOk result (λ q. asked q ≡ asked query) }
    ensures cursor { IfOk result (λ q. CursorIs (values_named (codes "cursor") parameters.now) q.cursor) }
    ensures err { IfErr result (λ e. (e ≡ QueryFault.NoMemory)
        ⊎ ((e ≡ QueryFault.BadCursor) × HasNoCursor (values_named (codes "cursor") parameters.now))) }
{
    let cursor = cursor_in(alloc, parameters)?;
    Ok(Query {
        filters: query.filters,
        fields: query.fields,
        facets: query.facets,
        order: query.order,
        limit: query.limit,
        cursor,
    })
}
