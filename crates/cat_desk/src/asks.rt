//! Questions to a catalogue, at a moment.
ghost use Rattle.std.specs.Prelude.{◌≡◌, ◌≢◌, ◌++◌, List, ℕ, option_map, true};
ghost use Rattle.cat_desk.specs.Asks.{IsAnswer, written_as};
ghost use Rattle.cat_desk.specs.Shown.{is_shown, shown_text};
ghost use Rattle.cat_model.specs.Reply.{is_quiet};
ghost use Rattle.cat_replies.specs.Asks.{AskFault, ask_text, document_numbered, text_or};

use crate::command::Asked;
use cat_core::catalogue::Catalogue;
use cat_plan::layers::Layers;
use cat_query::answers::{push_facets, push_list, push_many, push_page};
use cat_query::ask::Ask;
use cat_query::facets::FacetFault;
use cat_replies::events::{push_counts, push_quiet};
use cat_replies::lists::{push_conflicts, push_document, push_failures, push_orphans};
use cat_search::index::Index;
use cat_types::node::Node;
use cat_types::reference::Ref;
use std::alloc::{AllocError, Global};

/// Answers a question to a catalogue at this moment. Only what is answered `Written` changes `out`, by appending the answer.
pub fn write_ask<L: Layers>(
    alloc: Global,
    catalogue: &Catalogue<L>,
    ask: &Ask,
    now: u64,
    out: &mut Vec<u8>,
) -> Asked
    ensures answer { (text : List ℕ) × (out.new.items ≡ out.old.items ++ text) × IsAnswer (ask_text ask.now now catalogue.now.state) result text }
    ensures same { result ≢ Asked.Written → out.new.items ≡ out.old.items }
{
    let state = catalogue.view();
    match ask {
        Ask::Get(_) | Ask::List(_) | Ask::Page(_) | Ask::Facets(_) | Ask::Many(..) => {
            write_shown(alloc, &state.documents, ask, out)
        }
        Ask::Number(number) => numbered(alloc, catalogue, *number, out),
        Ask::Conflicts => written(push_conflicts(alloc, out, state)),
        Ask::Failed => written(push_failures(alloc, out, &state.records)),
        Ask::Orphans => written(push_orphans(alloc, out, &state.orphans)),
        Ask::State => written(push_counts(out, catalogue.state(now))),
        Ask::Quiet => written(push_quiet(out, is_quiet(catalogue, now))),
    }
}

/// How many documents a question has listed at most before it is answered.
const LISTED_AT_ONCE: usize = 1024;

// Whether a question chooses among the documents. A list without filters shows them all.
fn chooses(ask: &Ask) -> bool {
    match ask {
        Ask::List(query) => !query.filters.is_empty(),
        Ask::Page(_) | Ask::Facets(_) => true,
        Ask::Get(_)
        | Ask::Many(..)
        | Ask::Number(_)
        | Ask::Conflicts
        | Ask::Failed
        | Ask::Orphans
        | Ask::State
        | Ask::Quiet => false,
    }
}

/// Has the catalogue list some of the documents that wait for it, where a question chooses among the documents. Contracts see no difference.
pub fn prepare<L: Layers>(alloc: Global, catalogue: &mut Catalogue<L>, ask: &Ask)
    ensures { catalogue.new ≡ catalogue.old }
{
    if chooses(ask) {
        catalogue.list_documents(alloc, LISTED_AT_ONCE);
    }
}

/// Whether a question is answered from the documents alone.
pub fn is_shown(ask: &Ask) -> bool
    ensures { result ≡ is_shown ask.now }
{
    match ask {
        Ask::Get(_) | Ask::List(_) | Ask::Page(_) | Ask::Facets(_) | Ask::Many(..) => true,
        Ask::Number(_) | Ask::Conflicts | Ask::Failed | Ask::Orphans | Ask::State | Ask::Quiet =>
            false,
    }
}

/// Answers a question from documents that are all it asks for. Only what is answered `Written` changes `out`, by appending the
/// answer.
pub fn write_shown(alloc: Global, documents: &Index, ask: &Ask, out: &mut Vec<u8>) -> Asked
    requires { is_shown ask.now ≡ true }
    ensures answer { (text : List ℕ) × (out.new.items ≡ out.old.items ++ text) × IsAnswer (shown_text ask.now documents.now) result text }
    ensures same { result ≢ Asked.Written → out.new.items ≡ out.old.items }
{
    match ask {
        Ask::Get(reference) => document(alloc, documents.documents().get(reference), out),
        Ask::List(query) => written(push_list(alloc, out, documents, query)),
        Ask::Page(query) => written(push_page(alloc, out, documents, query)),
        Ask::Facets(query) => match push_facets(alloc, out, documents, query) {
            Ok(()) => Asked::Written,
            Err(FacetFault::NoFacet) => Asked::NoFacet,
            Err(FacetFault::NoMemory) => Asked::NoMemory,
        },
        Ask::Many(references, fields) => written(push_many(
            alloc,
            out,
            documents,
            references.as_slice(),
            fields,
        )),
        Ask::Number(_) | Ask::Conflicts | Ask::Failed | Ask::Orphans | Ask::State | Ask::Quiet =>
            unreachable!(),
    }
}

fn written(pushed: Result<(), AllocError>) -> Asked
    ensures { result ≡ written_as pushed }
{
    match pushed {
        Ok(()) => Asked::Written,
        Err(_) => Asked::NoMemory,
    }
}

// Appends the document, if there is one.
fn document(alloc: Global, document: Option<&Node>, out: &mut Vec<u8>) -> Asked
    ensures answer { (text : List ℕ) × (out.new.items ≡ out.old.items ++ text) × IsAnswer (text_or AskFault.not_found (option_map (λ x. x.now) document.entry)) result text }
    ensures same { result ≢ Asked.Written → out.new.items ≡ out.old.items }
{
    match document {
        Some(document) => written(push_document(alloc, out, document.tree())),
        None => Asked::NotFound,
    }
}

// Appends the document of what has this number, if there is one.
fn numbered<L: Layers>(
    alloc: Global,
    catalogue: &Catalogue<L>,
    number: u64,
    out: &mut Vec<u8>,
) -> Asked
    ensures answer { (text : List ℕ) × (out.new.items ≡ out.old.items ++ text) × IsAnswer (text_or AskFault.not_found (document_numbered number catalogue.now.state)) result text }
    ensures same { result ≢ Asked.Written → out.new.items ≡ out.old.items }
{
    match catalogue.ref_at(number) {
        Some(reference) => document(alloc, catalogue.get(reference), out),
        None => Asked::NotFound,
    }
}

fn is_quiet<L: Layers>(catalogue: &Catalogue<L>, now: u64) -> bool
    ensures { result ≡ is_quiet catalogue.now.state now }
{
    catalogue.quiet(now)
}
