//! Issues as status items of a document, after the Life of an Entity in the Backstage documentation.
ghost use Rattle.std.specs.Prelude.{◌≡◌, IfOk};
ghost use Rattle.cat_tree.specs.View.{data_of};
ghost use Rattle.cat_stitch.specs.Issues as spec;

use crate::make::{empty_map, with_words};
use cat_tree::edit::with_key;
use cat_tree::tree::{Tree, Trees};
use cat_types::issue::{Issue, IssueName, Level};
use std::alloc::{AllocError, Global};

/// The name under which a status item shows the level, as `error`.
pub fn level_text(level: Level) -> &'static str
    ensures { result.now ≡ spec.level_text level }
{
    match level {
        Level::Error => "error",
        Level::Warning => "warning",
    }
}

/// The name under which a status item shows what the issue is about, as `SchemaFault`.
pub fn issue_name_text(name: IssueName) -> &'static str
    ensures { result.now ≡ spec.issue_name_text name }
{
    match name {
        IssueName::SchemaFault => "SchemaFault",
        IssueName::ReferenceFault => "ReferenceFault",
        IssueName::TargetFault => "TargetFault",
        IssueName::MissingTarget => "MissingTarget",
        IssueName::ShelfFault => "ShelfFault",
        IssueName::DuplicateOffer => "DuplicateOffer",
    }
}

/// The status items of issues, a list in their order. The error is want of memory.
pub fn issue_items(alloc: Global, issues: &[Issue]) -> Result<Tree, AllocError>
    ensures { IfOk result (λ t. data_of t ≡ spec.items_of_issues issues.now) }
{
    let mut items = Vec::with_capacity(alloc, issues.len())?;
    for issue in issues {
        items.push(issue_item(alloc, issue)?)?;
    }
    Ok(Tree::List(Trees::from_vec(items)))
}

// The status item of an issue.
fn issue_item(alloc: Global, issue: &Issue) -> Result<Tree, AllocError>
    ensures { IfOk result (λ t. data_of t ≡ spec.item_of_issue issue.now) }
{
    let error = issue_error(alloc, issue)?;
    let item = with_key(alloc, empty_map(alloc), "error", error)?;
    let item = with_words(alloc, item, "level", level_text(issue.level))?;
    let item = with_words(alloc, item, "message", issue.message.as_str())?;
    with_words(alloc, item, "type", "backstage.io/catalog-processing")
}

// What is wrong, by message and name.
fn issue_error(alloc: Global, issue: &Issue) -> Result<Tree, AllocError>
    ensures { IfOk result (λ t. data_of t ≡ spec.error_of issue.now) }
{
    let error = with_words(alloc, empty_map(alloc), "message", issue.message.as_str())?;
    with_words(alloc, error, "name", issue_name_text(issue.name))
}
