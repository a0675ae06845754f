//! The references that the fields of an entity name, as they stand in its tree.
ghost use Rattle.std.specs.Prelude.{◌≡◌, ◌++◌, Some, map, IfOk, OnOk};
ghost use Rattle.cat_tree.specs.Data.{items_of};
ghost use Rattle.cat_tree.specs.View.{data_of};
ghost use Rattle.cat_schema.specs.Fields.{row_of};
ghost use Rattle.cat_kinds.specs.Mentions as spec;

use cat_schema::field::{RefField, fields, has_field};
use cat_schema::kind::Kind;
use cat_schema::rules::kind_of;
use cat_tree::ask::grandchild;
use cat_tree::tree::Tree;
use cat_types::reference::text_in;
use std::alloc::{AllocError, Global};

/// A text in a reference field, with its position from 0 where the field is a list.
#[derive(Clone, Copy, Debug)]
pub struct Mention<'a> {
    pub field: &'static RefField,
    pub position: Option<usize>,
    pub text: &'a str,
}

// Whether entities of this kind, if it is one, have the field.
fn fits(kind: Option<Kind>, field: &RefField) -> bool
    ensures { result ≡ spec.fits kind (row_of field.now) }
{
    match kind {
        Some(kind) => has_field(kind, field),
        None => false,
    }
}

// What the tree mentions, unless it is no text.
fn push_one<'a>(
    found: &mut Vec<Mention<'a>>,
    field: &'static RefField,
    position: Option<usize>,
    tree: &'a Tree,
) -> Result<(), AllocError>
    ensures { OnOk result (map spec.mention_of found.new.items
        ≡ map spec.mention_of found.old.items ++ spec.mention (row_of field.now) position (data_of tree.now)) }
{
    match text_in(tree) {
        Some(text) => {
            found.push(Mention {
                field,
                position,
                text,
            })?;
            Ok(())
        }
        None => Ok(()),
    }
}

// What the members of a list mention.
fn push_each<'a>(
    found: &mut Vec<Mention<'a>>,
    field: &'static RefField,
    trees: &'a [Tree],
) -> Result<(), AllocError>
    ensures { OnOk result (map spec.mention_of found.new.items
        ≡ map spec.mention_of found.old.items ++ spec.mentions_among (row_of field.now) 0 (items_of (map data_of trees.now))) }
{
    for (position, tree) in trees.iter().enumerate() {
        push_one(found, field, Some(position), tree)?;
    }
    Ok(())
}

// What the value of a field mentions.
fn push_value<'a>(
    found: &mut Vec<Mention<'a>>,
    field: &'static RefField,
    tree: &'a Tree,
) -> Result<(), AllocError>
    ensures { OnOk result (map spec.mention_of found.new.items
        ≡ map spec.mention_of found.old.items ++ spec.mentions_at (row_of field.now) (data_of tree.now)) }
{
    if !field.is_list {
        return push_one(found, field, None, tree);
    }
    match tree {
        Tree::List(trees) => push_each(found, field, trees.as_slice()),
        _ => Ok(()),
    }
}

// What a field of an entity mentions, whatever the kind of the entity.
#[tactic(auto, unfolding(crate::specs::Mentions::mentions_in))]
fn push_field<'a>(
    found: &mut Vec<Mention<'a>>,
    field: &'static RefField,
    tree: &'a Tree,
) -> Result<(), AllocError>
    ensures { OnOk result (map spec.mention_of found.new.items
        ≡ map spec.mention_of found.old.items ++ spec.mentions_in (row_of field.now) (data_of tree.now)) }
{
    match grandchild(tree, "spec", field.key) {
        Some(value) => push_value(found, field, value),
        None => Ok(()),
    }
}

#[tactic(auto, unfolding(crate::specs::Mentions::mentions_by))]
fn push_fitting<'a>(
    found: &mut Vec<Mention<'a>>,
    field: &'static RefField,
    tree: &'a Tree,
) -> Result<(), AllocError>
    ensures { OnOk result (map spec.mention_of found.new.items
        ≡ map spec.mention_of found.old.items ++ spec.mentions_by (data_of tree.now) (row_of field.now)) }
{
    if fits(kind_of(tree), field) {
        push_field(found, field, tree)
    } else {
        Ok(())
    }
}

/// What an entity mentions, in the order of the fields and of their lists. A field of another form is passed over.
#[tactic(auto, unfolding(crate::specs::Mentions::mentions))]
pub fn mentions<'a>(alloc: Global, tree: &'a Tree) -> Result<Vec<Mention<'a>>, AllocError>
    ensures { IfOk result (λ v. map spec.mention_of v.items ≡ spec.mentions (data_of tree.now)) }
{
    let mut found = Vec::new(alloc);
    for field in fields() {
        push_fitting(&mut found, field, tree)?;
    }
    Ok(found)
}
