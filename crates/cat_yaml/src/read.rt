//! From a text in block YAML to its documents.
ghost use Rattle.std.specs.Prelude.{◌≡◌, ◌⊎◌, List, ℕ, Ok, Err, IfOk, IfErr, IsErrOf, OnOk, map, option_map};
ghost use Rattle.cat_tree.specs.Data.{Data, items_of};
ghost use Rattle.cat_tree.specs.Proper.{ItemsNarrow, ItemsProper};
ghost use Rattle.cat_tree.specs.View.{data_of};
ghost use Rattle.cat_yaml.specs.Reading as spec;
ghost use Rattle.cat_yaml.specs.SeenLine.{seen_line};

use crate::block::block;
use crate::fault::Refusal;
use crate::line::{Line, Start, begins, is_document_end, is_passed, lines_of, part};
use crate::narrow::are_narrow;
use crate::scan::begins_with;
use cat_tree::read::TreeFault;
use cat_tree::tree::Tree;
use std::alloc::Global;

const MOST_LEVELS: usize = 127;

// The document on these lines, if one of them isn't passed over.
fn document(alloc: Global, lines: &[Line]) -> Result<Option<Tree>, Refusal>
    ensures ok { IfOk result (λ o. spec.document (map seen_line lines.now) ≡ Ok (option_map data_of o)) }
    ensures err { IfErr result (λ e. (spec.document (map seen_line lines.now) ≡ Err e) ⊎ (e ≡ Refusal.NoMemory)) }
{
    for (i, line) in lines.iter().enumerate() {
        if !is_passed(line) {
            if begins_with(b'\t', line.content) {
                return Err(Refusal::NoReading);
            }
            let (_, after) = lines.split_at(i + 1);
            return Ok(Some(block(alloc, MOST_LEVELS, line, after)?));
        }
    }
    Ok(None)
}

// Puts the document on these lines, if they have one, behind those so far.
fn put_document(alloc: Global, lines: &[Line], found: &mut Vec<Tree>) -> Result<(), Refusal>
    ensures ok { OnOk result (spec.with_document (map data_of found.old.items) (spec.document (map seen_line lines.now))
        ≡ Ok (map data_of found.new.items)) }
    ensures err { IfErr result (λ e. (spec.document (map seen_line lines.now) ≡ Err e) ⊎ (e ≡ Refusal.NoMemory)) }
{
    match document(alloc, lines)? {
        Some(tree) => {
            found.push(tree)?;
            Ok(())
        }
        None => Ok(()),
    }
}

fn documents(alloc: Global, lines: &[Line]) -> Result<Vec<Tree>, Refusal>
    ensures ok { IfOk result (λ v. spec.documents (map seen_line lines.now) ≡ Ok (map data_of v.items)) }
    ensures err { IfErr result (λ e. (spec.documents (map seen_line lines.now) ≡ Err e) ⊎ (e ≡ Refusal.NoMemory)) }
{
    let mut found = Vec::new(alloc);
    put_document(alloc, part(Start::Document, lines), &mut found)?;
    for (i, line) in lines.iter().enumerate() {
        if is_document_end(line) {
            return Err(Refusal::NoReading);
        }
        if begins(Start::Document, line) {
            let (_, after) = lines.split_at(i + 1);
            put_document(alloc, part(Start::Document, after), &mut found)?;
        }
    }
    Ok(found)
}

// The documents of a text, of which there is one or more.
fn some_documents(alloc: Global, text: &str) -> Result<Vec<Tree>, Refusal>
    ensures ok { IfOk result (λ v. spec.text_reading text.now ≡ Ok (map data_of v.items)) }
    ensures err { IfErr result (λ e. (spec.text_reading text.now ≡ Err e) ⊎ (e ≡ Refusal.NoMemory)) }
{
    let lines = lines_of(alloc, text)?;
    let found = documents(alloc, lines.as_slice())?;
    if found.is_empty() {
        return Err(Refusal::NoReading);
    }
    Ok(found)
}

#[tactic(auto, unfolding(crate::specs::Reading::reading))]
fn reading(alloc: Global, bytes: &[u8]) -> Result<Vec<Tree>, Refusal>
    ensures ok { IfOk result (λ v. spec.reading bytes.now ≡ Ok (map data_of v.items)) }
    ensures err { IfErr result (λ e. (spec.reading bytes.now ≡ Err e) ⊎ (e ≡ Refusal.NoMemory)) }
{
    match str::from_utf8(bytes) {
        Ok(text) => some_documents(alloc, text),
        Err(_) => Err(Refusal::NoReading),
    }
}

/// The documents of a text in this project's profile of block YAML, in their order. `Syntax` comes
/// exactly where the text has no reading, `Fraction` exactly where it has one that holds a fraction or a
/// whole number outside 64 bits. Nodes are at most 127 levels deep, and the keys of each map rise in byte
/// order. It takes memory for the lines and for the trees.
pub fn read_yaml(alloc: Global, bytes: &[u8]) -> Result<Vec<Tree>, TreeFault>
    ensures ok { IfOk result (λ v. spec.IsReading bytes.now (map data_of v.items)) }
    ensures narrow { IfOk result (λ v. ItemsNarrow (items_of (map data_of v.items))) }
    ensures rising { IfOk result (λ v. ItemsProper (items_of (map data_of v.items))) }
    ensures syntax { IsErrOf result TreeFault.Syntax → (ds : List Data) → ¬ spec.IsReading bytes.now ds }
    ensures fraction { IsErrOf result TreeFault.Fraction → (ds : List Data)
        × spec.IsReading bytes.now ds × ¬ (ItemsNarrow (items_of ds)) }
{
    match reading(alloc, bytes) {
        Ok(found) => {
            if are_narrow(found.as_slice()) {
                Ok(found)
            } else {
                Err(TreeFault::Fraction)
            }
        }
        Err(Refusal::NoReading) => Err(TreeFault::Syntax),
        Err(Refusal::NoMemory) => Err(TreeFault::NoMemory),
    }
}

/// A text has at most one reading.
pub fn reads_one_way()
    ensures { (text : List ℕ) (ds es : List Data) → spec.IsReading text ds → spec.IsReading text es → ds ≡ es }
{}
