//! Whether all that a state keeps has its form.
ghost use Rattle.std.specs.Prelude.{◌≡◌, IfOk};
ghost use Rattle.std.specs.List.{list_all};
ghost use Rattle.cat_row_reader.specs.Forms as spec;
ghost use Rattle.cat_collections.specs.Table.{keys};

use crate::entity::{is_entity, may_be_given};
use cat_collections::listing::Copied;
use cat_collections::map::Map;
use cat_model::records::Records;
use cat_model::rows::IndexedRows;
use cat_model::types::{Orphan, ProviderInputs, State};
use cat_tree::text::Text;
use cat_types::input::Offered;
use cat_types::reference::Ref;
use cat_types::work::Output;
use std::alloc::{AllocError, Global};

/// The greatest serial.
const MOST_SERIAL: u64 = (1 << 53) - 1;

fn is_numbered(inputs: &ProviderInputs) -> bool
    ensures { result ≡ spec.is_numbered inputs.now }
{
    inputs.items.len() == 0 || 1 <= inputs.serial && inputs.serial <= MOST_SERIAL
}

fn are_sources(providers: &Map<Text, ProviderInputs>) -> bool
    ensures { result ≡ list_all spec.is_source providers.now }
{
    for (_, inputs) in providers.iter() {
        if !is_numbered(inputs) {
            return false;
        }
    }
    true
}

fn are_given(alloc: Global, rows: &IndexedRows) -> Result<bool, AllocError>
    ensures { IfOk result (λ b. b ≡ list_all spec.is_given_row rows.now) }
{
    for (arrival, row) in rows.iter() {
        if *arrival == 0 || !may_be_given(alloc, &row.offered.tree, &row.reference)? {
            return Ok(false);
        }
    }
    Ok(true)
}

/// Whether offers are of different references.
fn differ(alloc: Global, offers: &[(Ref, Offered)]) -> Result<bool, AllocError>
    ensures { IfOk result (λ b. b ≡ spec.differ (keys offers.now)) }
{
    let mut seen = Map::new();
    let mut left = offers.len();
    while left > 0 {
        left -= 1;
        let reference = &offers[left].0;
        if seen.get(reference).is_some() {
            return Ok(false);
        }
        seen.put(alloc, reference.duplicate(alloc)?, ())?;
    }
    Ok(true)
}

fn is_output(alloc: Global, reference: &Ref, output: &Option<Output>) -> Result<bool, AllocError>
    ensures { IfOk result (λ b. b ≡ spec.is_output reference.now output.now) }
{
    match output {
        None => Ok(true),
        Some(output) => {
            if is_entity(alloc, &output.entity, reference)? {
                differ(alloc, output.offers.as_slice())
            } else {
                Ok(false)
            }
        }
    }
}

fn are_kept(alloc: Global, records: &Records) -> Result<bool, AllocError>
    ensures { IfOk result (λ b. b ≡ list_all spec.is_kept records.now) }
{
    for (reference, kept) in records.iter() {
        if !is_output(alloc, reference, &kept.output)? {
            return Ok(false);
        }
    }
    Ok(true)
}

fn are_left(alloc: Global, orphans: &Map<Ref, Orphan>) -> Result<bool, AllocError>
    ensures { IfOk result (λ b. b ≡ list_all spec.is_left orphans.now) }
{
    for (reference, orphan) in orphans.iter() {
        if !is_entity(alloc, &orphan.entity, reference)? {
            return Ok(false);
        }
    }
    Ok(true)
}

/// Whether all that a state keeps has its form: providers with items have serials, what is offered may stand under its reference,
/// kept outputs and orphans have entities of their references, and no output offers a reference twice.
#[tactic(auto, unfolding(crate::specs::Forms::has_forms))]
pub fn has_forms(alloc: Global, m: &State) -> Result<bool, AllocError>
    ensures { IfOk result (λ b. b ≡ spec.has_forms m.now) }
{
    let are_sources = are_sources(&m.providers);
    let are_given = are_given(alloc, &m.rows)?;
    let are_kept = are_kept(alloc, &m.records)?;
    let are_left = are_left(alloc, &m.orphans)?;
    Ok(are_sources && are_given && are_kept && are_left)
}
