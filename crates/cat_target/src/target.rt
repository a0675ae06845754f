//! The targets of a Location, or the fault that leaves it without any.
ghost use Rattle.std.specs.Prelude.{◌≡◌, ◌⊎◌, map, option_map, IfOk, IfErr, OnOk, Ok, Err, true, length, ◌≤◌};
ghost use Rattle.std.specs.List.{list_all};
ghost use Rattle.cat_tree.specs.View.{data_of};
ghost use Rattle.cat_target.specs.Base.{as_base};
ghost use Rattle.cat_target.specs.Resolve.{base_url as the_url, name_of as the_name};
ghost use Rattle.std.specs.Option.{option_copied};
ghost use Rattle.cat_target.specs.Targets as spec;

use crate::base::Base;
use crate::location::{base_of, is_optional, target_texts, type_of};
use crate::resolve::{base_url, name_of};
use cat_tree::text::Text;
use cat_tree::tree::Tree;
use std::alloc::{AllocError, AllocFailed, Global};
use thiserror::Error;
use url::Url;

const MOST_TARGETS: usize = 1000;

/// A file that a Location points to.
#[derive(Drop)]
pub struct Target {
    /// The name under which the file stands on the shelf: its type, `:` and its target.
    pub name: Text,
    /// Whether it is no fault that nothing stands there.
    pub optional: bool,
}

/// Why a Location has no targets.
#[derive(Clone, Copy, Debug, Drop, PartialEq, Eq, Error)]
pub enum TargetFault {
    /// It has over 1,000 target texts.
    #[error("over 1,000 targets")]
    TooMany,
    /// It has a target text, but neither a type of its own nor a base.
    #[error("no type and no base for the targets")]
    NoType,
    /// The text at this place, the first such, has no name. Places count from 0, over `target` and then `targets`.
    #[error("target {0} has no name")]
    BadTarget(usize),
    /// Want of memory.
    #[error("out of memory")]
    NoMemory,
}

impl From<AllocError> for TargetFault {
    ghost use Rattle.std.specs.Prelude.{◌≡◌};
    ghost use Rattle.cat_target.specs.declared.target.TargetFault.TheVariants.{NoMemory};

    ghost from_gives = { λ _ e. e ≡ NoMemory };

    fn from(_refused: AllocError) -> TargetFault {
        TargetFault::NoMemory
    }
}

impl<T: Drop> From<AllocFailed<T>> for TargetFault {
    ghost use Rattle.std.specs.Prelude.{◌≡◌};
    ghost use Rattle.cat_target.specs.declared.target.TargetFault.TheVariants.{NoMemory};

    ghost from_gives = { λ _ e. e ≡ NoMemory };

    fn from(_refused: AllocFailed<T>) -> TargetFault {
        TargetFault::NoMemory
    }
}

/// The files that the Location points to, in the order of its texts, each name at its first place only.
///
/// The first of these that holds refuses it: `TooMany`, over 1,000 texts; `NoType`, a text but no type; `BadTarget`, a
/// text without a name. A Location without texts has no targets. Each name may stand on the shelf, and there are at most
/// 1,000. A field of another form than the schema asks for is passed over.
#[tactic(auto, unfolding(crate::specs::Targets::targets_of))]
pub fn targets(alloc: Global, tree: &Tree) -> Result<Vec<Target>, TargetFault>
    ensures ok { IfOk result (λ v. spec.targets_of (data_of tree.now) ≡ Ok v.items) }
    ensures err { IfErr result
        (λ e. (spec.targets_of (data_of tree.now) ≡ Err e) ⊎ (e ≡ TargetFault.NoMemory)) }
    ensures on_shelf { IfOk result (λ v. list_all spec.is_on_shelf v.items ≡ true) }
    ensures distinct { IfOk result (λ v. spec.are_distinct (map (λ t. t.name) v.items) ≡ true) }
    ensures few { IfOk result (λ v. length v.items ≤ 1000) }
{
    let texts = target_texts(alloc, tree)?;
    if texts.len() > MOST_TARGETS {
        return Err(TargetFault::TooMany);
    }
    if texts.is_empty() {
        return Ok(Vec::new(alloc));
    }
    match type_of(tree) {
        Some(kind) => targets_by_type(alloc, tree, kind, texts.as_slice()),
        None => Err(TargetFault::NoType),
    }
}

/// The targets of a Location, or none at a fault. The only refusal is want of memory.
pub fn targets_unless_faulty(alloc: Global, tree: &Tree) -> Result<Vec<Target>, AllocError>
    ensures { IfOk result (λ v. v.items ≡ spec.unless_faulty (spec.targets_of (data_of tree.now))) }
{
    match targets(alloc, tree) {
        Ok(found) => Ok(found),
        Err(TargetFault::NoMemory) => Err(AllocError),
        Err(_) => Ok(Vec::new(alloc)),
    }
}

// The names of targets.
fn names_in(alloc: Global, targets: &[Target]) -> Result<Vec<Text>, AllocError>
    ensures { IfOk result (λ v. v.items ≡ map (λ t. t.name) targets.now) }
{
    let mut names = Vec::new(alloc);
    for target in targets {
        names.push(Text::of(alloc, target.name.as_str())?)?;
    }
    Ok(names)
}

/// The shelf names that a descriptor may read: those of its targets, as a Location has them, and none where they are at fault. An
/// entity of another kind reads none, also where it has fields of such names. The only refusal is want of memory.
#[tactic(auto, unfolding(crate::specs::Targets::read_names))]
pub fn read_names(alloc: Global, tree: &Tree) -> Result<Vec<Text>, AllocError>
    ensures { IfOk result (λ v. v.items ≡ spec.read_names (data_of tree.now)) }
{
    let targets = targets_unless_faulty(alloc, tree)?;
    names_in(alloc, targets.as_slice())
}

// The targets of a Location of this type with these texts.
fn targets_by_type(
    alloc: Global,
    tree: &Tree,
    kind: &str,
    texts: &[&str],
) -> Result<Vec<Target>, TargetFault>
    ensures ok { IfOk result (λ v. spec.targets_by_type (data_of tree.now) kind.now
        (map (λ t. t.now) texts.now) ≡ Ok v.items) }
    ensures err { IfErr result (λ e. (spec.targets_by_type (data_of tree.now) kind.now
        (map (λ t. t.now) texts.now) ≡ Err e) ⊎ (e ≡ TargetFault.NoMemory)) }
    ensures on_shelf { IfOk result (λ v. list_all spec.is_on_shelf v.items ≡ true) }
    ensures distinct { IfOk result (λ v. spec.are_distinct (map (λ t. t.name) v.items) ≡ true) }
    ensures few { IfOk result (λ v. length v.items ≤ length texts.now) }
{
    let base = base_of(tree);
    let url = base_url(alloc, base)?;
    let names = names_of(alloc, base, url.as_ref(), kind, texts)?;
    let found = as_targets(alloc, names, is_optional(tree))?;
    Ok(found)
}

// The name of each text, seen from a base with this URL.
fn names_of(
    alloc: Global,
    base: Option<Base<'_>>,
    url: Option<&Url>,
    kind: &str,
    texts: &[&str],
) -> Result<Vec<Text>, TargetFault>
    requires { option_copied url ≡ the_url (option_map as_base base) }
    ensures ok { IfOk result (λ v. spec.names_from
        (the_name (option_map as_base base.entry) kind.now) 0
        (map (λ t. t.now) texts.now) ≡ Ok v.items) }
    ensures err { IfErr result (λ e. (spec.names_from
        (the_name (option_map as_base base.entry) kind.now) 0
        (map (λ t. t.now) texts.now) ≡ Err e) ⊎ (e ≡ TargetFault.NoMemory)) }
{
    let mut names = Vec::new(alloc);
    for (i, text) in texts.iter().enumerate() {
        match name_of(alloc, base, url, kind, text)? {
            Some(name) => names.push(name)?,
            None => return Err(TargetFault::BadTarget(i)),
        }
    }
    Ok(names)
}

// A target for each name, at its first place.
fn as_targets(alloc: Global, names: Vec<Text>, optional: bool) -> Result<Vec<Target>, AllocError>
    ensures { IfOk result (λ v. v.items ≡ map (spec.target optional) (spec.distinct names.items)) }
{
    let mut targets: Vec<Target> = Vec::new(alloc);
    for name in names {
        add(&mut targets, name, optional)?;
    }
    Ok(targets)
}

// Adds a target of this name, unless one stands there.
fn add(targets: &mut Vec<Target>, name: Text, optional: bool) -> Result<(), AllocError>
    ensures { OnOk result (targets.new.items ≡ spec.with_target optional targets.old.items name) }
{
    if stands(targets.as_slice(), &name) {
        return Ok(());
    }
    targets.push(Target { name, optional })?;
    Ok(())
}

fn stands(targets: &[Target], name: &Text) -> bool
    ensures { result ≡ spec.has_name name.now targets.now }
{
    targets.iter().any(|t| t.name.as_str() == name.as_str())
}
