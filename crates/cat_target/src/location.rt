//! What the tree of a Location says of its targets, by `spec` and the annotation
//! `backstage.io/managed-by-location` of the Backstage descriptor format.
//!
//! A field of another form than the schema asks for is passed over here; where the forms hold, none is.
ghost use Rattle.std.specs.Prelude.{◌≡◌, ◌++◌, map, option_map, IfOk, OnOk, codes};
ghost use Rattle.std.specs.Option.{option_copied, option_to_list};
ghost use Rattle.cat_tree.specs.Data.{items_of};
ghost use Rattle.cat_tree.specs.View.{data_of};
ghost use Rattle.cat_target.specs.Base.{as_base};
ghost use Rattle.cat_target.specs.Location as spec;

use crate::base::{Base, base_named};
use cat_tree::ask::{child, grandchild};
use cat_tree::tree::Tree;
use std::alloc::{AllocError, Global};

// The text of a field of `spec`.
#[tactic(auto, unfolding(crate::specs::Location::spec_words))]
fn spec_words<'a>(tree: &'a Tree, key: &str) -> Option<&'a str>
    ensures { option_copied result ≡ spec.spec_words key.now (data_of tree.now) }
{
    match grandchild(tree, "spec", key) {
        Some(Tree::Words(text)) => Some(text.as_str()),
        _ => None,
    }
}

/// The target texts: `spec.target`, if it is there, and then `spec.targets`.
#[tactic(auto, unfolding(crate::specs::Location::target_texts))]
pub fn target_texts<'a>(alloc: Global, tree: &'a Tree) -> Result<Vec<&'a str>, AllocError>
    ensures { IfOk result (λ v. map (λ t. t.now) v.items ≡ spec.target_texts (data_of tree.now)) }
{
    let mut texts = first_text(alloc, tree)?;
    push_more(&mut texts, tree)?;
    Ok(texts)
}

fn first_text<'a>(alloc: Global, tree: &'a Tree) -> Result<Vec<&'a str>, AllocError>
    ensures { IfOk result (λ v. map (λ t. t.now) v.items
        ≡ option_to_list (spec.spec_words (codes "target") (data_of tree.now))) }
{
    let mut texts = Vec::new(alloc);
    match spec_words(tree, "target") {
        Some(text) => {
            texts.push(text)?;
            Ok(texts)
        }
        None => Ok(texts),
    }
}

#[tactic(auto, unfolding(crate::specs::Location::more_texts))]
fn push_more<'a>(texts: &mut Vec<&'a str>, tree: &'a Tree) -> Result<(), AllocError>
    ensures { OnOk result (map (λ t. t.now) texts.new.items
        ≡ map (λ t. t.now) texts.old.items ++ spec.more_texts (data_of tree.now)) }
{
    match grandchild(tree, "spec", "targets") {
        Some(Tree::List(trees)) => push_words(texts, trees.as_slice()),
        _ => Ok(()),
    }
}

fn push_words<'a>(texts: &mut Vec<&'a str>, trees: &'a [Tree]) -> Result<(), AllocError>
    ensures { OnOk result (map (λ t. t.now) texts.new.items
        ≡ map (λ t. t.now) texts.old.items ++ spec.words_among (items_of (map data_of trees.now))) }
{
    for tree in trees {
        push_if_words(texts, tree)?;
    }
    Ok(())
}

fn push_if_words<'a>(texts: &mut Vec<&'a str>, tree: &'a Tree) -> Result<(), AllocError>
    ensures { OnOk result (map (λ t. t.now) texts.new.items
        ≡ map (λ t. t.now) texts.old.items ++ option_to_list (spec.as_words (data_of tree.now))) }
{
    match tree {
        Tree::Words(text) => {
            texts.push(text.as_str())?;
            Ok(())
        }
        _ => Ok(()),
    }
}

// The annotation that says where the Location comes from.
#[tactic(auto, unfolding(crate::specs::Location::origin))]
fn origin(tree: &Tree) -> Option<&str>
    ensures { option_copied result ≡ spec.origin (data_of tree.now) }
{
    match grandchild(tree, "metadata", "annotations") {
        Some(annotations) => match child(annotations, "backstage.io/managed-by-location") {
            Some(Tree::Words(text)) => Some(text.as_str()),
            _ => None,
        },
        None => None,
    }
}

/// The base of the targets: the annotation `backstage.io/managed-by-location`, cut at the first `:` into type and
/// target. None where that is no text, or no Location type stands before the `:`, or nothing after it.
#[tactic(auto, unfolding(crate::specs::Location::base_of))]
pub fn base_of(tree: &Tree) -> Option<Base<'_>>
    ensures { option_map as_base result ≡ spec.base_of (data_of tree.now) }
{
    match origin(tree) {
        Some(text) => base_named(text),
        None => None,
    }
}

/// The type of the targets: `spec.type`, else the type of the base.
#[tactic(auto, unfolding(crate::specs::Location::type_of))]
pub fn type_of(tree: &Tree) -> Option<&str>
    ensures { option_copied result ≡ spec.type_of (data_of tree.now) }
{
    match spec_words(tree, "type") {
        Some(kind) => Some(kind),
        None => match base_of(tree) {
            Some(base) => Some(base.kind),
            None => None,
        },
    }
}

/// Whether `spec.presence` is `optional`, so that a target for which nothing stands on the shelf is no fault.
#[tactic(auto, unfolding(crate::specs::Location::is_optional))]
pub fn is_optional(tree: &Tree) -> bool
    ensures { result ≡ spec.is_optional (data_of tree.now) }
{
    match spec_words(tree, "presence") {
        Some(presence) => presence == "optional",
        None => false,
    }
}
