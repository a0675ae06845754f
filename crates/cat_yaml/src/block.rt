//! Block nodes: lists, maps and values on one line.
ghost use Rattle.std.specs.Prelude.{◌≡◌, ◌⊎◌, Ok, Err, IfOk, IfErr, OnOk, map, option_map};
ghost use Rattle.cat_tree.specs.Data.{dict};
ghost use Rattle.cat_tree.specs.View.{data_of};
ghost use Rattle.std.specs.Option.{option_copied};
ghost use Rattle.cat_yaml.specs.Block as spec;
ghost use Rattle.cat_yaml.specs.Quoted.{quoted_end as quoted_end_of};
ghost use Rattle.cat_yaml.specs.Scan.{colon_from};
ghost use Rattle.cat_yaml.specs.SeenLine.{seen_line};
ghost use Rattle.cat_yaml.specs.SeenPair.{seen_pairs};
ghost use Rattle.cat_yaml.specs.Value.{as_list};

use crate::fault::Refusal;
use crate::line::{Line, Start, are_passed, begins, indent_of, is_passed, part};
use crate::literal::{chomping_of, literal};
use crate::quoted::{quoted_end, quoted_text};
use crate::scalar::{is_plain, text_of};
use crate::scan::{begins_colon, begins_with, colon_at, is_item, is_quoted, stripped, trimmed};
use crate::value::value;
use cat_tree::text::Text;
use cat_tree::tree::{Pairs, Tree, Trees};
use std::alloc::Global;
use std::collections::BTreeMap;

// What follows a colon, if one stands here that the line's end or a space follows.
fn after_colon(bytes: &[u8]) -> Option<&[u8]>
    ensures { option_copied result ≡ spec.after_colon bytes.now }
{
    match bytes.split_first() {
        Some((_, rest)) => {
            if begins_colon(bytes) {
                Some(rest)
            } else {
                None
            }
        }
        None => None,
    }
}

// A key in quotes, and what follows its colon.
fn quoted_key(bytes: &[u8]) -> Option<(&[u8], &[u8])>
    ensures { option_map (λ p. (p.0.now, p.1.now)) result ≡ spec.quoted_key bytes.now (quoted_end_of bytes.now) }
{
    match quoted_end(bytes) {
        Some(end) => {
            let (key, after) = bytes.split_at(end);
            match after_colon(stripped(after)) {
                Some(rest) => Some((key, rest)),
                None => None,
            }
        }
        None => None,
    }
}

// A plain key, and what follows its colon.
fn plain_key(bytes: &[u8]) -> Option<(&[u8], &[u8])>
    ensures { option_map (λ p. (p.0.now, p.1.now)) result ≡ spec.plain_key bytes.now (colon_from 0 bytes.now) }
{
    match colon_at(bytes) {
        Some(at) => {
            let (key, _) = bytes.split_at(at);
            let (_, rest) = bytes.split_at(at + 1);
            let key = trimmed(b' ', key);
            if is_plain(key) {
                Some((key, rest))
            } else {
                None
            }
        }
        None => None,
    }
}

// The key before the first colon that the line's end or a space follows, and what follows the colon.
fn key_cut(bytes: &[u8]) -> Option<(&[u8], &[u8])>
    ensures { option_map (λ p. (p.0.now, p.1.now)) result ≡ spec.key_cut bytes.now }
{
    if is_quoted(bytes) {
        quoted_key(bytes)
    } else {
        plain_key(bytes)
    }
}

// Whether the line has a key.
fn has_key(bytes: &[u8]) -> bool
    ensures { result ≡ spec.has_key bytes.now }
{
    match key_cut(bytes) {
        Some(_) => true,
        None => false,
    }
}

// The text of a key.
fn key_text(alloc: Global, bytes: &[u8]) -> Result<Text, Refusal>
    ensures ok { IfOk result (λ t. spec.key_text bytes.now ≡ Ok t) }
    ensures err { IfErr result (λ e. (spec.key_text bytes.now ≡ Err e) ⊎ (e ≡ Refusal.NoMemory)) }
{
    if is_quoted(bytes) {
        quoted_text(alloc, bytes)
    } else {
        text_of(alloc, bytes)
    }
}

// What follows the hyphen or the colon of an entry, without spaces in front, and nothing where that is a
// comment.
fn rest_of(bytes: &[u8]) -> &[u8]
    ensures { result.now ≡ spec.rest_of bytes.now }
{
    let rest = stripped(bytes);
    if begins_with(b'#', rest) { &[] } else { rest }
}

// The node on the lines below an entry, and null without such lines.
#[cycle(block)]
fn nested(alloc: Global, levels: usize, lines: &[Line]) -> Result<Tree, Refusal>
    ensures ok { IfOk result (λ t. spec.nested (spec.block levels) (map seen_line lines.now) ≡ Ok (data_of t)) }
    ensures err { IfErr result (λ e. (spec.nested (spec.block levels) (map seen_line lines.now) ≡ Err e)
        ⊎ (e ≡ Refusal.NoMemory)) }
{
    for (i, line) in lines.iter().enumerate() {
        if !is_passed(line) {
            if begins_with(b'\t', line.content) {
                return Err(Refusal::NoReading);
            }
            let (_, after) = lines.split_at(i + 1);
            return block(alloc, levels, line, after);
        }
    }
    Ok(Tree::Null)
}

// The value of an item, by its rest and the lines below it.
#[cycle(block)]
fn item_rest(
    alloc: Global,
    levels: usize,
    line: &Line,
    rest: &[u8],
    below: &[Line],
) -> Result<Tree, Refusal>
    ensures ok { IfOk result (λ t. spec.item_rest (spec.block levels) (seen_line line.now) rest.now (map seen_line below.now)
        ≡ Ok (data_of t)) }
    ensures err { IfErr result (λ e. (spec.item_rest (spec.block levels) (seen_line line.now) rest.now
        (map seen_line below.now) ≡ Err e) ⊎ (e ≡ Refusal.NoMemory)) }
{
    if rest.is_empty() {
        return nested(alloc, levels, below);
    }
    match chomping_of(rest) {
        Some(chomping) => literal(alloc, chomping, indent_of(line), below),
        None => {
            let line = Line {
                width: line.width,
                content: rest,
            };
            block(alloc, levels, &line, below)
        }
    }
}

// The item at an indent that begins on this line.
#[cycle(block)]
fn item(
    alloc: Global,
    levels: usize,
    indent: usize,
    line: &Line,
    below: &[Line],
) -> Result<Tree, Refusal>
    ensures ok { IfOk result (λ t. spec.item (spec.block levels) indent (seen_line line.now) (map seen_line below.now)
        ≡ Ok (data_of t)) }
    ensures err { IfErr result (λ e. (spec.item (spec.block levels) indent (seen_line line.now) (map seen_line below.now)
        ≡ Err e) ⊎ (e ≡ Refusal.NoMemory)) }
{
    if indent_of(line) != indent || !is_item(line.content) {
        return Err(Refusal::NoReading);
    }
    match line.content.split_first() {
        Some((_, after)) => item_rest(alloc, levels, line, rest_of(after), below),
        None => Err(Refusal::NoReading),
    }
}

// The list that begins on this line.
#[cycle(block)]
fn items(alloc: Global, levels: usize, line: &Line, below: &[Line]) -> Result<Vec<Tree>, Refusal>
    ensures ok { IfOk result (λ v. spec.items (spec.block levels) (seen_line line.now) (map seen_line below.now)
        ≡ Ok (map data_of v.items)) }
    ensures err { IfErr result (λ e. (spec.items (spec.block levels) (seen_line line.now) (map seen_line below.now)
        ≡ Err e) ⊎ (e ≡ Refusal.NoMemory)) }
{
    let indent = indent_of(line);
    let mut found = Vec::new(alloc);
    found.push(item(
        alloc,
        levels,
        indent,
        line,
        part(Start::Item(indent), below),
    )?)?;
    for (i, next) in below.iter().enumerate() {
        if begins(Start::Item(indent), next) {
            let (_, after) = below.split_at(i + 1);
            found.push(item(
                alloc,
                levels,
                indent,
                next,
                part(Start::Item(indent), after),
            )?)?;
        }
    }
    Ok(found)
}

// The value of a map's entry by its rest and the lines below it.
#[cycle(block)]
fn pair_value(
    alloc: Global,
    levels: usize,
    indent: usize,
    rest: &[u8],
    below: &[Line],
) -> Result<Tree, Refusal>
    ensures ok { IfOk result (λ t. spec.pair_value (spec.block levels) levels indent rest.now (map seen_line below.now)
        ≡ Ok (data_of t)) }
    ensures err { IfErr result (λ e. (spec.pair_value (spec.block levels) levels indent rest.now (map seen_line below.now)
        ≡ Err e) ⊎ (e ≡ Refusal.NoMemory)) }
{
    if rest.is_empty() {
        return nested(alloc, levels, below);
    }
    match chomping_of(rest) {
        Some(chomping) => literal(alloc, chomping, indent, below),
        None => {
            if !are_passed(below) {
                return Err(Refusal::NoReading);
            }
            value(alloc, levels, rest)
        }
    }
}

// The key and the value of the entry at an indent that begins on this line.
#[cycle(block)]
fn pair(
    alloc: Global,
    levels: usize,
    indent: usize,
    line: &Line,
    below: &[Line],
) -> Result<(Text, Tree), Refusal>
    ensures ok { IfOk result (λ p. spec.pair (spec.block levels) levels indent (seen_line line.now)
        (map seen_line below.now) ≡ Ok (p.0, data_of p.1)) }
    ensures err { IfErr result (λ e. (spec.pair (spec.block levels) levels indent (seen_line line.now)
        (map seen_line below.now) ≡ Err e) ⊎ (e ≡ Refusal.NoMemory)) }
{
    if indent_of(line) != indent || begins_with(b'\t', line.content) {
        return Err(Refusal::NoReading);
    }
    match key_cut(line.content) {
        Some((key, rest)) => {
            let key = key_text(alloc, key)?;
            let tree = pair_value(alloc, levels, indent, rest_of(rest), below)?;
            Ok((key, tree))
        }
        None => Err(Refusal::NoReading),
    }
}

// Puts an entry into the map, which must not have its key yet.
fn put(
    alloc: Global,
    pairs: &mut BTreeMap<String, Tree>,
    key: &Text,
    tree: Tree,
) -> Result<(), Refusal>
    ensures ok { OnOk result (spec.with_pair (seen_pairs pairs.old.entries) key.now (data_of tree)
        ≡ Ok (seen_pairs pairs.new.entries)) }
    ensures err { IfErr result (λ e. (spec.with_pair (seen_pairs pairs.old.entries) key.now (data_of tree) ≡ Err e)
        ⊎ (e ≡ Refusal.NoMemory)) }
{
    let key = String::from_str(alloc, key.as_str())?;
    match pairs.insert(key, tree)? {
        Some(_) => Err(Refusal::NoReading),
        None => Ok(()),
    }
}

// The map that begins on this line.
#[cycle(block)]
fn pairs(
    alloc: Global,
    levels: usize,
    line: &Line,
    below: &[Line],
) -> Result<BTreeMap<String, Tree>, Refusal>
    ensures ok { IfOk result (λ m. spec.pairs (spec.block levels) levels (seen_line line.now) (map seen_line below.now)
        ≡ Ok (seen_pairs m.entries)) }
    ensures err { IfErr result (λ e. (spec.pairs (spec.block levels) levels (seen_line line.now) (map seen_line below.now)
        ≡ Err e) ⊎ (e ≡ Refusal.NoMemory)) }
{
    let indent = indent_of(line);
    let mut found = BTreeMap::new(alloc);
    let (key, tree) = pair(
        alloc,
        levels,
        indent,
        line,
        part(Start::Entry(indent), below),
    )?;
    put(alloc, &mut found, &key, tree)?;
    for (i, next) in below.iter().enumerate() {
        if begins(Start::Entry(indent), next) {
            let (_, after) = below.split_at(i + 1);
            let (key, tree) = pair(
                alloc,
                levels,
                indent,
                next,
                part(Start::Entry(indent), after),
            )?;
            put(alloc, &mut found, &key, tree)?;
        }
    }
    Ok(found)
}

// The map of these entries.
fn map_of(alloc: Global, pairs: BTreeMap<String, Tree>) -> Result<Tree, Refusal>
    ensures ok { IfOk result (λ t. data_of t ≡ dict (seen_pairs pairs.entries)) }
    ensures err { IfErr result (λ e. e ≡ Refusal.NoMemory) }
{
    let mut entries = Vec::with_capacity(alloc, pairs.len())?;
    for (key, tree) in pairs {
        entries.push((Text::from_string(key), tree))?;
    }
    Ok(Tree::Map(Pairs::from_vec(entries)))
}

// The value on this line alone.
fn alone(alloc: Global, levels: usize, line: &Line, below: &[Line]) -> Result<Tree, Refusal>
    ensures ok { IfOk result (λ t. spec.alone levels (seen_line line.now) (map seen_line below.now) ≡ Ok (data_of t)) }
    ensures err { IfErr result (λ e. (spec.alone levels (seen_line line.now) (map seen_line below.now) ≡ Err e)
        ⊎ (e ≡ Refusal.NoMemory)) }
{
    if !are_passed(below) {
        return Err(Refusal::NoReading);
    }
    value(alloc, levels, line.content)
}

// The list that begins on this line, as a tree.
#[cycle(block)]
fn list_node(alloc: Global, levels: usize, line: &Line, below: &[Line]) -> Result<Tree, Refusal>
    ensures ok { IfOk result (λ t. as_list (spec.items (spec.block levels) (seen_line line.now)
        (map seen_line below.now)) ≡ Ok (data_of t)) }
    ensures err { IfErr result (λ e. (as_list (spec.items (spec.block levels) (seen_line line.now)
        (map seen_line below.now)) ≡ Err e) ⊎ (e ≡ Refusal.NoMemory)) }
{
    match items(alloc, levels, line, below) {
        Ok(found) => Ok(Tree::List(Trees::from_vec(found))),
        Err(refusal) => Err(refusal),
    }
}

// The map that begins on this line, as a tree.
#[cycle(block)]
fn map_node(alloc: Global, levels: usize, line: &Line, below: &[Line]) -> Result<Tree, Refusal>
    ensures ok { IfOk result (λ t. spec.as_map (spec.pairs (spec.block levels) levels (seen_line line.now)
        (map seen_line below.now)) ≡ Ok (data_of t)) }
    ensures err { IfErr result (λ e. (spec.as_map (spec.pairs (spec.block levels) levels (seen_line line.now)
        (map seen_line below.now)) ≡ Err e) ⊎ (e ≡ Refusal.NoMemory)) }
{
    match pairs(alloc, levels, line, below) {
        Ok(found) => map_of(alloc, found),
        Err(refusal) => Err(refusal),
    }
}

/// The block node that begins on a line and goes on in the lines below it, where so many levels of lists
/// and maps may open.
#[cycle(block)]
pub fn block(alloc: Global, levels: usize, line: &Line, below: &[Line]) -> Result<Tree, Refusal>
    ensures ok { IfOk result (λ t. spec.block levels (seen_line line.now) (map seen_line below.now) ≡ Ok (data_of t)) }
    ensures err { IfErr result (λ e. (spec.block levels (seen_line line.now) (map seen_line below.now) ≡ Err e)
        ⊎ (e ≡ Refusal.NoMemory)) }
{
    if is_item(line.content) {
        if levels == 0 {
            return Err(Refusal::NoReading);
        }
        return list_node(alloc, levels - 1, line, below);
    }
    if has_key(line.content) {
        if levels == 0 {
            return Err(Refusal::NoReading);
        }
        return map_node(alloc, levels - 1, line, below);
    }
    alone(alloc, levels, line, below)
}
