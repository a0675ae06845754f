//! The documents of a candidate.
ghost use Rattle.std.specs.Prelude.{◌≡◌, IfOk, option_map};
ghost use Rattle.cat_collections.specs.Table.{tabulate, text_cmp};
ghost use Rattle.cat_model.specs.Catalogue.{known_refs, parts};
ghost use Rattle.cat_plan.specs.Linked.{AreLinked, AreRecorded, linked_parts};

use cat_collections::listing::{Copied, Listing};
use cat_links::links::Links;
use cat_model::types::State;
use cat_plan::build::{Gives, tabulated};
use cat_plan::layers::Layers;
use cat_plan::linked_parts::parts_of;
use cat_plan::parts::{Present, append};
use cat_search::index::Index;
use cat_types::node::Node;
use cat_types::reference::Ref;
use std::alloc::{AllocError, Global};

// The references that have a record or are orphans, in order.
fn all_refs(alloc: Global, m: &State) -> Result<Listing<Ref>, AllocError>
    ensures { IfOk result (λ l. l ≡ known_refs m.now) }
{
    let mut all = m.records.keys(alloc)?;
    let orphans = m.orphans.keys(alloc)?;
    append(alloc, &mut all, orphans.as_slice())?;
    let sorted = tabulated(alloc, all.as_slice(), &Present)?;
    sorted.keys(alloc)
}

// Each reference with parts has the document of them.
#[derive(Drop)]
struct Stitched<'a, L> {
    layers: &'a L,
    links: &'a Links,
    m: &'a State,
}

impl<L: Layers> Gives<Ref, Node> for Stitched<'_, L> {
    ghost gives = { λ s r. option_map L.rules.doc (linked_parts L.rules s.links.now s.m.now r) };

    fn give(&self, alloc: Global, key: &Ref) -> Result<Option<Node>, AllocError> {
        let m = self.m;
        let parts = parts_of(
            alloc,
            self.layers,
            self.links,
            key,
            m.orphans.get(key),
            m.records.get(key),
        )?;
        match parts {
            None => Ok(None),
            Some(parts) => Ok(Some(self.layers.doc(alloc, &parts)?)),
        }
    }
}

// The documents that the function gives these references; a reference without one is left out.
fn indexed<F: Gives<Ref, Node>>(alloc: Global, keys: &[Ref], f: &F) -> Result<Index, AllocError>
    ensures { IfOk result (λ i. i ≡ tabulate text_cmp keys.now (F.gives f.now)) }
{
    let mut index = Index::empty();
    let mut left = keys.len();
    while left > 0 {
        left -= 1;
        if let Some(document) = f.give(alloc, &keys[left])? {
            index.put(alloc, keys[left].duplicate(alloc)?, document)?;
        }
    }
    Ok(index)
}

/// The document of each reference that has parts.
pub fn documents_of<L: Layers>(
    alloc: Global,
    layers: &L,
    links: &Links,
    m: &State,
) -> Result<Index, AllocError>
    requires linked { AreLinked L.rules links.now m.now }
    requires recorded { AreRecorded m.now }
    ensures { IfOk result (λ t. t ≡ tabulate text_cmp (known_refs m.now) (λ r. option_map L.rules.doc (parts L.rules m.now r))) }
{
    let all = all_refs(alloc, m)?;
    let stitched = Stitched { layers, links, m };
    indexed(alloc, all.as_slice(), &stitched)
}
