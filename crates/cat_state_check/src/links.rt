//! The links of a candidate, from nothing.
ghost use Rattle.std.specs.Prelude.{◌≡◌, IfOk, map};
ghost use Rattle.cat_collections.specs.Table.{keys};
ghost use Rattle.cat_model.specs.Catalogue.{emits, output_of};
ghost use Rattle.cat_plan.specs.Linked.{AreLinked};

use cat_collections::listing::Copied;
use cat_links::links::{EmitChange, Links};
use cat_model::records::Records;
use cat_model::types::State;
use cat_plan::layers::Layers;
use cat_plan::parts::emitted_by;
use std::alloc::{AllocError, Global};

// What the kept outputs emit.
fn emissions<L: Layers>(
    alloc: Global,
    layers: &L,
    records: &Records,
) -> Result<Vec<EmitChange>, AllocError>
    ensures { IfOk result (λ l. l.items ≡ map (λ e. record { emitter = e; relations = emits L.rules e (output_of records.now e) }) (keys records.now)) }
{
    let mut changes = Vec::new(alloc);
    for (emitter, _) in records.iter() {
        changes.push(EmitChange {
            emitter: emitter.duplicate(alloc)?,
            relations: emitted_by(alloc, layers, records, emitter)?,
        })?;
    }
    Ok(changes)
}

/// The relations of the kept outputs of a candidate.
pub fn links_of<L: Layers>(alloc: Global, layers: &L, m: &State) -> Result<Links, AllocError>
    ensures { IfOk result (λ links. AreLinked L.rules links m.now) }
{
    let changes = emissions(alloc, layers, &m.records)?;
    let mut links = Links::empty();
    let plan = links.plan(alloc, changes.as_slice())?;
    links.apply(plan);
    Ok(links)
}
