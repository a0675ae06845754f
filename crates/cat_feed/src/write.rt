//! Changes written as JSON. Each part is appended from the changes themselves, so no document is copied.
ghost use Rattle.std.specs.Prelude.{◌≡◌, ◌++◌, ◌∷◌, [], codes, false, map, option_map, IfOk, OnOk, OnErr};
ghost use Rattle.serde_json.specs.Written.{comma_if, items_text};
ghost use Rattle.cat_tree.specs.Data.{items_of, words};
ghost use Rattle.cat_tree.specs.Text.{json_items, text_of};
ghost use Rattle.cat_tree.specs.View.{data_of};
ghost use Rattle.cat_query.specs.Answers.{IsKept};
ghost use Rattle.cat_feed.specs.Written.{change_data, changes_data, place_data, set_of};
ghost use Rattle.cat_feed.specs.Place.{since_text};

use crate::change::{Change, Changes, Since};
use crate::place::since_text;
use cat_query::answers::push_tree;
use cat_tree::text::Text;
use cat_tree::tree::Tree;
use cat_types::node::Node;
use std::alloc::{AllocError, Global};

/// Appends the text of changes: `{"changes":[{"entityRef":R,"set":DOC},{"entityRef":R}],"from":F,"to":"E.N"}`, where a change
/// without `set` says that there is no document any more, and F is null or a place. The numbers of the changes aren't written.
/// Where memory is wanted, nothing is appended.
pub fn write_changes(alloc: Global, changes: &Changes, out: &mut Vec<u8>) -> Result<(), AllocError>
    ensures ok { OnOk result (out.new.items ≡ out.old.items ++ text_of (changes_data changes.now)) }
    ensures err { OnErr result (out.new.items ≡ out.old.items) }
{
    let start = out.len();
    let pushed = push_changes(alloc, out, changes);
    if pushed.is_err() {
        out.truncate(start);
    }
    pushed
}

// Appends the text of changes, or a part of it.
fn push_changes(alloc: Global, out: &mut Vec<u8>, changes: &Changes) -> Result<(), AllocError>
    ensures ok { OnOk result (out.new.items ≡ out.old.items ++ text_of (changes_data changes.now)) }
    ensures kept { IsKept out.old.items out.new.items }
{
    out.extend_from_slice(b"{\"changes\":[")?;
    push_list(alloc, out, changes.list.as_slice())?;
    push_places(alloc, out, changes.from, changes.to)
}

// Appends the changes with the closing bracket, or a part of this.
fn push_list(alloc: Global, out: &mut Vec<u8>, changes: &[Change]) -> Result<(), AllocError>
    ensures ok { OnOk result (out.new.items ≡ out.old.items ++ items_text false (json_items (items_of (map change_data changes.now)))) }
    ensures kept { IsKept out.old.items out.new.items }
{
    let mut later = false;
    for change in changes {
        push_change(alloc, out, later, change)?;
        later = true;
    }
    out.push(b']')?;
    Ok(())
}

// Appends a change, behind a comma where something stands before; or a part of this.
fn push_change(
    alloc: Global,
    out: &mut Vec<u8>,
    later: bool,
    change: &Change,
) -> Result<(), AllocError>
    ensures ok { OnOk result (out.new.items ≡ out.old.items ++ (comma_if later ++ text_of (change_data change.now))) }
    ensures kept { IsKept out.old.items out.new.items }
{
    push_comma(out, later)?;
    push_alone(alloc, out, change)
}

// Appends a comma where something stands before.
fn push_comma(out: &mut Vec<u8>, later: bool) -> Result<(), AllocError>
    ensures ok { OnOk result (out.new.items ≡ out.old.items ++ comma_if later) }
    ensures kept { IsKept out.old.items out.new.items }
{
    out.extend_from_slice(if later { b"," } else { b"" })
}

// Appends a change, or a part of it.
fn push_alone(alloc: Global, out: &mut Vec<u8>, change: &Change) -> Result<(), AllocError>
    ensures ok { OnOk result (out.new.items ≡ out.old.items ++ text_of (change_data change.now)) }
    ensures kept { IsKept out.old.items out.new.items }
{
    let reference = Tree::Words(Text::of(alloc, change.reference.as_str())?);
    push_parts(out, &reference, set_tree(&change.set))
}

// Lends the document that is set, if one is.
fn set_tree(set: &Option<Node>) -> Option<&Tree>
    ensures { option_map (λ t. data_of t.now) result ≡ set.now }
{
    match set {
        Some(node) => Some(node.tree()),
        None => None,
    }
}

// Appends a reference with the document that is set, if one is, or a part of this.
fn push_parts(
    out: &mut Vec<u8>,
    reference: &Tree,
    document: Option<&Tree>,
) -> Result<(), AllocError>
    ensures ok { OnOk result (out.new.items ≡ out.old.items ++ text_of (set_of (data_of reference.now) (option_map (λ t. data_of t.now) document.entry))) }
    ensures kept { IsKept out.old.items out.new.items }
{
    match document {
        Some(document) => push_set(out, reference, document),
        None => push_between(out, b"{\"entityRef\":", reference, b"}"),
    }
}

// Appends a change that sets a document, or a part of it.
fn push_set(out: &mut Vec<u8>, reference: &Tree, document: &Tree) -> Result<(), AllocError>
    ensures ok { OnOk result (out.new.items ≡ out.old.items
        ++ (codes "{\"entityRef\":" ++ (text_of (data_of reference.now) ++ (codes ",\"set\":" ++ (text_of (data_of document.now) ++ codes "}"))))) }
    ensures kept { IsKept out.old.items out.new.items }
{
    push_between(out, b"{\"entityRef\":", reference, b",\"set\":")?;
    push_between(out, b"", document, b"}")
}

// Appends words, the text of a tree and other words, or a part of this.
fn push_between(
    out: &mut Vec<u8>,
    before: &[u8],
    tree: &Tree,
    behind: &[u8],
) -> Result<(), AllocError>
    ensures ok { OnOk result (out.new.items ≡ out.old.items ++ (before.now ++ (text_of (data_of tree.now) ++ behind.now))) }
    ensures kept { IsKept out.old.items out.new.items }
{
    out.extend_from_slice(before)?;
    push_tree(out, tree)?;
    out.extend_from_slice(behind)
}

// Appends what comes behind the changes, or a part of it.
fn push_places(
    alloc: Global,
    out: &mut Vec<u8>,
    from: Option<Since>,
    to: Since,
) -> Result<(), AllocError>
    ensures ok { OnOk result (out.new.items ≡ out.old.items
        ++ (codes ",\"from\":" ++ (text_of (place_data from) ++ (codes ",\"to\":" ++ (text_of (words (since_text to)) ++ codes "}"))))) }
    ensures kept { IsKept out.old.items out.new.items }
{
    let from = place_tree(alloc, from)?;
    let to = Tree::Words(since_text(alloc, to)?);
    push_between(out, b",\"from\":", &from, b",\"to\":")?;
    push_between(out, b"", &to, b"}")
}

// A place as a tree: null, where there is none.
fn place_tree(alloc: Global, place: Option<Since>) -> Result<Tree, AllocError>
    ensures { IfOk result (λ t. data_of t ≡ place_data place) }
{
    match place {
        Some(since) => Ok(Tree::Words(since_text(alloc, since)?)),
        None => Ok(Tree::Null),
    }
}
