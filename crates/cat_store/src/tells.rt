//! Whether a state is in order and its numbers have 64 bits, so that its rows tell it. Nothing here takes memory.
ghost use Rattle.std.specs.Prelude.{◌≡◌, ◌^◌, ◌&&◌, nat_lt, true};
ghost use Rattle.std.specs.FinMap.Entries.{is_sorted};
ghost use Rattle.std.specs.List.{AllByRecursion, list_all};
ghost use Rattle.cat_tree.specs.Proper.{IsProper};
ghost use Rattle.cat_collections.specs.Table.{text_cmp};
ghost use Rattle.cat_store.specs.Narrow.{is_narrow};
ghost use Rattle.cat_store.specs.Tells as spec;

use crate::narrow::is_narrow;
use cat_collections::map::Map;
use cat_model::records::Records;
use cat_model::rows::IndexedRows;
use cat_model::types::{Orphan, ProviderInputs, Row, State};
use cat_tree::text::Text;
use cat_types::input::Offered;
use cat_types::reference::Ref;
use cat_types::work::Output;

// A serial has 64 bits by its type.
fn is_right_provider(serial: u64, inputs: &ProviderInputs) -> bool
    ensures { result ≡ (nat_lt serial (2 ^ 64) && is_sorted text_cmp inputs.now.items) }
{
    inputs.items.in_order();
    true
}

fn are_right_providers(providers: &Map<Text, ProviderInputs>) -> bool
    ensures { result ≡ list_all spec.is_right_provider providers.now }
{
    for (_, inputs) in providers.iter() {
        if !is_right_provider(inputs.serial, inputs) {
            return false;
        }
    }
    true
}

fn is_narrow_row(arrival: u64, row: &Row) -> bool
    ensures narrow { result ≡ spec.is_narrow_row (arrival, row.now) }
    ensures proper { result ≡ true → spec.IsProperRow (arrival, row.now) }
{
    is_narrow(row.offered.tree.tree())
}

fn are_narrow_rows(rows: &IndexedRows) -> bool
    ensures narrow { result ≡ list_all spec.is_narrow_row rows.now }
    ensures proper { result ≡ true → AllByRecursion spec.IsProperRow rows.now }
{
    for (arrival, row) in rows.iter() {
        if !is_narrow_row(*arrival, row) {
            return false;
        }
    }
    true
}

fn are_narrow_offers(offers: &[(Ref, Offered)]) -> bool
    ensures { result ≡ list_all spec.is_narrow_offer offers.now }
{
    for (_, offered) in offers {
        if !is_narrow(offered.tree.tree()) {
            return false;
        }
    }
    true
}

fn is_narrow_output(output: &Option<Output>) -> bool
    ensures narrow { result ≡ spec.is_narrow_output output.now }
    ensures proper { result ≡ true → spec.IsProperOutput output.now }
{
    match output {
        None => true,
        Some(output) => {
            is_narrow(output.entity.tree()) && are_narrow_offers(output.offers.as_slice())
        }
    }
}

// The number of a record has 64 bits by its type.
fn is_narrow_record(number: u64, output: &Option<Output>) -> bool
    ensures narrow { result ≡ (nat_lt number (2 ^ 64) && spec.is_narrow_output output.now) }
    ensures proper { result ≡ true → spec.IsProperOutput output.now }
{
    is_narrow_output(output)
}

fn are_narrow_records(records: &Records) -> bool
    ensures narrow { result ≡ list_all spec.is_narrow_record records.now }
    ensures proper { result ≡ true → AllByRecursion spec.IsProperRecord records.now }
{
    for (_, kept) in records.iter() {
        if !is_narrow_record(kept.number, &kept.output) {
            return false;
        }
    }
    true
}

// The number of an orphan has 64 bits by its type.
fn is_narrow_orphan(number: u64, orphan: &Orphan) -> bool
    ensures narrow { result ≡ (nat_lt number (2 ^ 64) && is_narrow orphan.now.entity) }
    ensures proper { result ≡ true → IsProper orphan.now.entity }
{
    is_narrow(orphan.entity.tree())
}

fn are_narrow_orphans(orphans: &Map<Ref, Orphan>) -> bool
    ensures narrow { result ≡ list_all spec.is_narrow_orphan orphans.now }
    ensures proper { result ≡ true → AllByRecursion spec.IsProperOrphan orphans.now }
{
    for (_, orphan) in orphans.iter() {
        if !is_narrow_orphan(orphan.number, orphan) {
            return false;
        }
    }
    true
}

/// Whether the providers of a state, their items and the shelf are in order, as those of a map are, and the numbers of all that it keeps have 64 bits. Of a
/// state that is sound, the rows tell it then. The keys of each map that it keeps were seen to rise.
#[tactic(auto, unfolding(crate::specs::Tells::is_telling))]
pub(crate) fn is_telling(m: &State) -> bool
    ensures tells { result ≡ spec.is_telling m.now }
    ensures proper { result ≡ true → spec.AreProper m.now }
{
    m.providers.in_order();
    m.shelf.in_order();
    are_right_providers(&m.providers)
        && are_narrow_rows(&m.rows)
        && are_narrow_records(&m.records)
        && are_narrow_orphans(&m.orphans)
}
