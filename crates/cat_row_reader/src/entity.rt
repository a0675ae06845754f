//! What is asked of a tree.
ghost use Rattle.std.specs.Prelude.{◌≡◌, ◌==◌, length, IfOk};
ghost use Rattle.cat_kinds.specs.Kinds.{kind_faults};
ghost use Rattle.cat_row_reader.specs.Forms as spec;
ghost use Rattle.cat_types.specs.Reference.{described};
ghost use Rattle.cat_tree.specs.View.{data_of};

use cat_kinds::answer::{KindAnswer, relations};
use cat_schema::rules::check;
use cat_tree::ask::{depth, grandchild};
use cat_tree::tree::Tree;
use cat_types::fault::RefFault;
use cat_types::node::Node;
use cat_types::reference::{Ref, ref_of};
use std::alloc::{AllocError, Global};

/// How deep the tree of an item or an offer may be.
const MOST_DEPTH: u64 = 100;

/// Whether this is the reference of the tree.
pub fn is_of(alloc: Global, tree: &Tree, reference: &Ref) -> Result<bool, AllocError>
    ensures { IfOk result (λ b. b ≡ spec.is_this reference.now (described (data_of tree.now))) }
{
    match ref_of(alloc, tree) {
        Ok(own) => Ok(own.as_str() == reference.as_str()),
        Err(RefFault::NoMemory) => Err(AllocError),
        Err(_) => Ok(false),
    }
}

/// Whether a tree may be given under this reference: the reference is that of the tree, which isn't too deep.
pub fn may_be_given(alloc: Global, tree: &Node, reference: &Ref) -> Result<bool, AllocError>
    ensures { IfOk result (λ b. b ≡ spec.may_be_given tree.now reference.now) }
{
    if depth(tree.tree()) <= MOST_DEPTH {
        is_of(alloc, tree.tree(), reference)
    } else {
        Ok(false)
    }
}

// Whether all reference fields have a reading.
fn has_references(alloc: Global, tree: &Tree, reference: &Ref) -> Result<bool, AllocError>
    ensures { IfOk result (λ b. b ≡ (length (kind_faults (data_of tree.now)) == 0)) }
{
    match relations(alloc, tree, reference)? {
        KindAnswer::Relations(_) => Ok(true),
        KindAnswer::Faults(_) => Ok(false),
    }
}

fn has_namespace(tree: &Tree) -> bool
    ensures { result ≡ spec.has_namespace (data_of tree.now) }
{
    grandchild(tree, "metadata", "namespace").is_some()
}

/// Whether this may be the processed entity of a reference: it breaks no rule of the descriptor format, its reference fields
/// have readings, it names its namespace, and the reference is its own.
pub fn is_entity(alloc: Global, entity: &Node, reference: &Ref) -> Result<bool, AllocError>
    ensures { IfOk result (λ b. b ≡ spec.is_entity entity.now reference.now) }
{
    let tree = entity.tree();
    if !has_namespace(tree) || !is_of(alloc, tree, reference)? {
        return Ok(false);
    }
    if !check(alloc, tree)?.is_empty() {
        return Ok(false);
    }
    has_references(alloc, tree, reference)
}
