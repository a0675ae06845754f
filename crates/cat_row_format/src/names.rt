//! The words that stand in rows.
ghost use Rattle.std.specs.Prelude.{◌≡◌};
ghost use Rattle.cat_row_format.specs.Names as names;
ghost use Rattle.cat_row_format.specs.Parsed as parsed;

use crate::row::{OrphanRule, RowFault, StoredCounter};
use cat_types::issue::{IssueName, Level};

/// The name of a counter, as `arrival`.
pub fn counter_text(counter: StoredCounter) -> &'static str
    ensures { result.now ≡ names.counter_text counter }
{
    match counter {
        StoredCounter::Arrival => "arrival",
        StoredCounter::Number => "number",
    }
}

/// The name of a rule for orphans, as `keep`.
pub fn rule_text(rule: OrphanRule) -> &'static str
    ensures { result.now ≡ names.rule_text rule }
{
    match rule {
        OrphanRule::Keep => "keep",
        OrphanRule::Delete => "delete",
    }
}

/// The counter of a name.
pub fn counter_in(text: &str) -> Result<StoredCounter, RowFault>
    ensures { result ≡ parsed.counter_in text.now }
{
    if text == "arrival" {
        Ok(StoredCounter::Arrival)
    } else if text == "number" {
        Ok(StoredCounter::Number)
    } else {
        Err(RowFault::BadRow)
    }
}

/// The rule for orphans of a name.
pub fn rule_in(text: &str) -> Result<OrphanRule, RowFault>
    ensures { result ≡ parsed.rule_in text.now }
{
    if text == "keep" {
        Ok(OrphanRule::Keep)
    } else if text == "delete" {
        Ok(OrphanRule::Delete)
    } else {
        Err(RowFault::BadRow)
    }
}

/// The level of a name.
pub fn level_in(text: &str) -> Result<Level, RowFault>
    ensures { result ≡ parsed.level_in text.now }
{
    if text == "error" {
        Ok(Level::Error)
    } else if text == "warning" {
        Ok(Level::Warning)
    } else {
        Err(RowFault::BadRow)
    }
}

/// What an issue of a name is about.
pub fn issue_name_in(text: &str) -> Result<IssueName, RowFault>
    ensures { result ≡ parsed.issue_name_in text.now }
{
    if text == "SchemaFault" {
        Ok(IssueName::SchemaFault)
    } else if text == "ReferenceFault" {
        Ok(IssueName::ReferenceFault)
    } else if text == "TargetFault" {
        Ok(IssueName::TargetFault)
    } else if text == "MissingTarget" {
        Ok(IssueName::MissingTarget)
    } else if text == "ShelfFault" {
        Ok(IssueName::ShelfFault)
    } else if text == "DuplicateOffer" {
        Ok(IssueName::DuplicateOffer)
    } else {
        Err(RowFault::BadRow)
    }
}
