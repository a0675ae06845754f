//! Locations with their targets.
use crate::fault::Fault;
use cat_case::case::Case;
use cat_case::shown::push_word;
use cat_target::target::{Target, targets};
use cat_tree::tree::Tree;
use std::alloc::{AllocError, Global};

// Puts the name of a target, with a `?` where it may be missing, behind what stands so far.
fn push_target(out: &mut String, target: &Target) -> Result<(), AllocError> {
    push_word(out, target.name.as_str())?;
    if target.optional {
        return out.push_str("?");
    }
    Ok(())
}

fn push_targets(out: &mut String, targets: &[Target]) -> Result<(), AllocError> {
    for target in targets {
        push_target(out, target)?;
    }
    Ok(())
}

// Puts the names of the targets of a tree behind what stands so far.
fn push_names(out: &mut String, alloc: Global, tree: &Tree) -> Result<(), Fault> {
    let targets = targets(alloc, tree)?;
    push_targets(out, targets.as_slice()).map_err(Fault::Memory)
}

/// Puts the names of the targets of a Location, each that may be missing with a `?`, behind what stands so far.
pub fn names(out: &mut String, alloc: Global, case: &Case) -> Result<(), Fault> {
    let tree = case.tree(alloc, 1)?;
    push_names(out, alloc, &tree)
}
