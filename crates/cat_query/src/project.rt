//! What paths keep of a document.
ghost use Rattle.std.specs.Prelude.{◌≡◌, ◌++◌, IfOk, OnOk, map, option_map};
ghost use Rattle.cat_tree.specs.Data.{IsRising, members_of};
ghost use Rattle.cat_tree.specs.View.{data_of, entry_of};
ghost use Rattle.cat_query.specs.Project.{below, entry_kept, filled, has_end, projected, reached};

use cat_collections::listing::Listing;
use cat_tree::clone::copy;
use cat_tree::text::Text;
use cat_tree::tree::{Pairs, Tree};
use std::alloc::{AllocError, Global};

fn has_end(paths: &[&[Text]]) -> bool
    ensures { result ≡ has_end (map (λ p. p.now) paths.now) }
{
    for path in paths {
        if path.is_empty() {
            return true;
        }
    }
    false
}

// The rests of the paths that begin with the key.
fn below<'a>(alloc: Global, key: &str, paths: &[&'a [Text]]) -> Result<Vec<&'a [Text]>, AllocError>
    ensures { IfOk result (λ v. map (λ p. p.now) v.items ≡ below key.now (map (λ p. p.now) paths.now)) }
{
    let mut rests = Vec::new(alloc);
    for path in paths {
        if let [first, rest @ ..] = *path {
            if first.as_str() == key {
                rests.push(rest)?;
            }
        }
    }
    Ok(rests)
}

// A map of the members, unless there are none.
fn filled(items: Vec<(Text, Tree)>) -> Option<Tree>
    requires { IsRising (map entry_of items.items) }
    ensures { option_map data_of result ≡ filled (members_of (map entry_of items.items)) }
{
    if items.as_slice().is_empty() {
        None
    } else {
        Some(Tree::Map(Pairs::from_vec(items)))
    }
}

// Keeps the member, where something of it is reached.
fn keep(
    alloc: Global,
    key: &str,
    part: Option<Tree>,
    items: &mut Vec<(Text, Tree)>,
) -> Result<(), AllocError>
    ensures { OnOk result (map entry_of items.new.items
        ≡ map entry_of items.old.items ++ entry_kept key.now (option_map data_of part)) }
{
    if let Some(part) = part {
        items.push((Text::of(alloc, key)?, part))?;
    }
    Ok(())
}

// What the paths reach of the tree.
#[tactic(auto, using(cat_tree::proofs::Weights::falls))]
fn reached(alloc: Global, paths: &[&[Text]], tree: &Tree) -> Result<Option<Tree>, AllocError>
    ensures { IfOk result (λ o. option_map data_of o ≡ reached (map (λ p. p.now) paths.now) (data_of tree.now)) }
{
    if has_end(paths) {
        return Ok(Some(copy(alloc, tree)?));
    }
    match tree {
        Tree::Map(pairs) => {
            let mut items = Vec::new(alloc);
            for (key, tree) in pairs.as_slice() {
                let rests = below(alloc, key.as_str(), paths)?;
                let part = reached(alloc, rests.as_slice(), tree)?;
                keep(alloc, key.as_str(), part, &mut items)?;
            }
            Ok(filled(items))
        }
        Tree::Null | Tree::Flag(_) | Tree::Whole(_) | Tree::Words(_) | Tree::List(_) => Ok(None),
    }
}

fn lent(alloc: Global, fields: &Listing<Listing<Text>>) -> Result<Vec<&[Text]>, AllocError>
    ensures { IfOk result (λ v. map (λ p. p.now) v.items ≡ fields.now) }
{
    let mut paths = Vec::new(alloc);
    for path in fields.as_slice() {
        paths.push(path.as_slice())?;
    }
    Ok(paths)
}

/// Keeps of a document what the paths reach through maps, keys compared exactly; without paths the
/// whole document. A path that reaches nothing keeps nothing.
pub fn project(
    alloc: Global,
    document: &Tree,
    fields: &Listing<Listing<Text>>,
) -> Result<Tree, AllocError>
    ensures { IfOk result (λ t. data_of t ≡ projected fields.now (data_of document.now)) }
{
    let paths = lent(alloc, fields)?;
    if paths.is_empty() {
        return copy(alloc, document);
    }
    match reached(alloc, paths.as_slice(), document)? {
        Some(tree) => Ok(tree),
        None => Ok(Tree::Map(Pairs::new(alloc))),
    }
}
