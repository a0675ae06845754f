//! What a mirror answers to a line, and the list of its documents.
ghost use Rattle.std.specs.Prelude.{◌≡◌, ◌≢◌, ◌++◌, ◌∷◌, [], Ok, codes, false, map, IfOk, OnOk, OnErr};
ghost use Rattle.serde_json.specs.Written.{comma_if, items_text};
ghost use Rattle.cat_tree.specs.Data.{items_of};
ghost use Rattle.cat_tree.specs.Text.{json_items, text_of};
ghost use Rattle.cat_mirror.specs.Answers as spec;

use crate::line::LINE_LIMIT;
use cat_collections::map::Map;
use cat_feed::change::{Changes, Since};
use cat_feed::mirror::{Mirror, MirrorFault};
use cat_feed::place::since_text;
use cat_feed::read::read_changes;
use cat_feed::text_fault::ChangesFault;
use cat_query::answers::push_tree;
use cat_tree::read::TreeFault;
use cat_types::node::Node;
use cat_types::reference::Ref;
use std::alloc::{AllocError, Global};

// A line of two texts.
fn line_of(alloc: Global, words: &str, text: &str) -> Result<Vec<u8>, AllocError>
    ensures { IfOk result (λ line. line.items ≡ (words.now ++ text.now) ++ 10 ∷ []) }
{
    let mut line = words.as_bytes().to_vec(alloc)?;
    line.extend_from_slice(text.as_bytes())?;
    line.push(b'\n')?;
    Ok(line)
}

// Why a line is no changes. Want of memory has no text, since it ends the work.
fn refused(alloc: Global, fault: ChangesFault) -> Result<Vec<u8>, AllocError>
    ensures text { IfOk result (λ line. line.items ≡ spec.refusal fault ++ 10 ∷ []) }
    ensures said { OnOk result (fault ≢ ChangesFault.NoMemory) }
{
    match fault {
        ChangesFault::Json(TreeFault::Syntax) => line_of(alloc, "refused json ", "syntax"),
        ChangesFault::Json(TreeFault::Fraction) => line_of(alloc, "refused json ", "fraction"),
        ChangesFault::Shape(field) => line_of(alloc, "refused shape ", field.text()),
        ChangesFault::Json(TreeFault::NoMemory) | ChangesFault::NoMemory => Err(AllocError),
    }
}

// That changes don't lead on from the mirror's place, which this is.
fn gap(alloc: Global, place: Option<Since>) -> Result<Vec<u8>, AllocError>
    ensures { IfOk result (λ line. line.items ≡ (codes "refused gap " ++ spec.place_text place) ++ 10 ∷ []) }
{
    match place {
        Some(since) => line_of(alloc, "refused gap ", since_text(alloc, since)?.as_str()),
        None => line_of(alloc, "refused gap ", "none"),
    }
}

// That changes were applied, which lead to this place.
fn accepted(alloc: Global, to: Since) -> Result<Vec<u8>, AllocError>
    ensures { IfOk result (λ line. line.items ≡ (codes "ok " ++ spec.place_text (Some to)) ++ 10 ∷ []) }
{
    line_of(alloc, "ok ", since_text(alloc, to)?.as_str())
}

// Applies changes where they lead on from the mirror's place, and gives the answer.
fn applied(alloc: Global, mirror: &mut Mirror, changes: &Changes) -> Result<Vec<u8>, AllocError>
    ensures text { IfOk result (λ line. line.items ≡ spec.told changes.now mirror.old ++ 10 ∷ []) }
    ensures next { OnOk result (mirror.new ≡ spec.led_by (Ok changes.now) mirror.old) }
    ensures same { OnErr result (mirror.new ≡ mirror.old) }
{
    let line = accepted(alloc, changes.to)?;
    match mirror.apply(alloc, changes) {
        Ok(()) => Ok(line),
        Err(MirrorFault::Gap(place)) => gap(alloc, place),
        Err(MirrorFault::NoMemory) => Err(AllocError),
    }
}

/// Reads a line as changes, has the mirror apply them, and gives the answer. For want of memory the mirror is as before.
#[tactic(auto, unfolding(crate::specs::Answers::mirror_answer, crate::specs::Answers::mirror_next))]
pub(crate) fn answer(alloc: Global, mirror: &mut Mirror, line: &[u8]) -> Result<Vec<u8>, AllocError>
    ensures text { IfOk result (λ text. text.items ≡ spec.mirror_answer mirror.old line.now) }
    ensures next { OnOk result (mirror.new ≡ spec.mirror_next mirror.old line.now) }
    ensures same { OnErr result (mirror.new ≡ mirror.old) }
{
    if line.len() > LINE_LIMIT {
        return line_of(alloc, "refused long", "");
    }
    match read_changes(alloc, line) {
        Ok(changes) => applied(alloc, mirror, &changes),
        Err(fault) => refused(alloc, fault),
    }
}

// Appends a document, behind a comma where something stands before.
fn push_document(out: &mut Vec<u8>, later: bool, document: &Node) -> Result<(), AllocError>
    ensures { OnOk result (out.new.items ≡ out.old.items ++ (comma_if later ++ text_of document.now)) }
{
    if later {
        out.push(b',')?;
    }
    push_tree(out, document.tree())
}

// Appends the documents with the closing bracket.
fn push_documents(out: &mut Vec<u8>, documents: &Map<Ref, Node>) -> Result<(), AllocError>
    ensures { OnOk result (out.new.items ≡ out.old.items ++ items_text false (json_items (items_of (map (λ e. e.1) documents.now)))) }
{
    let mut later = false;
    for (_, document) in documents.iter() {
        push_document(out, later, document)?;
        later = true;
    }
    out.push(b']')?;
    Ok(())
}

/// The list of the documents in order of reference, as a line.
#[tactic(auto, unfolding(crate::specs::Answers::documents_line))]
pub(crate) fn documents_line(
    alloc: Global,
    documents: &Map<Ref, Node>,
) -> Result<Vec<u8>, AllocError>
    ensures { IfOk result (λ line. line.items ≡ spec.documents_line documents.now) }
{
    let mut line = vec![in alloc; b'[']?;
    push_documents(&mut line, documents)?;
    line.push(b'\n')?;
    Ok(line)
}
