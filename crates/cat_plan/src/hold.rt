//! Which row holds each reference.
ghost use Rattle.std.specs.Prelude.{◌≡◌, option_map};
ghost use Rattle.cat_model.specs.Catalogue.{held, holding};

use cat_collections::map::Map;
use cat_model::rows::IndexedRows;
use cat_model::types::Row;
use cat_types::reference::Ref;

/// Whether a row holds the reference.
pub fn is_held(holders: &Map<Ref, u64>, reference: &Ref) -> bool
    ensures { result ≡ held holders.now reference.now }
{
    holders.get(reference).is_some()
}

/// The row that holds a reference, if any does.
pub fn row_of<'a>(
    rows: &'a IndexedRows,
    holders: &Map<Ref, u64>,
    reference: &Ref,
) -> Option<&'a Row>
    ensures { option_map (λ x. x.now) result ≡ holding rows.now holders.now reference.now }
{
    match holders.get(reference) {
        Some(arrival) => rows.get(arrival),
        None => None,
    }
}
