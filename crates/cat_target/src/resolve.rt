//! The name of the file that a target of a Location stands for.
//!
//! URLs are parsed, joined and printed by the URL Standard, as `url` promises; paths are walked piece by piece.
ghost use Rattle.std.specs.Prelude.{◌≡◌, ◌++◌, ◌∷◌, [], map, option_map, IfOk, true, false, codes, string_bytes, length, None, Some};
ghost use Rattle.std.specs.Option.{option_copied};
ghost use Rattle.std.specs.Result.{result_ok};
ghost use Rattle.url.specs.Parser.{Gives, parse_url};
ghost use Rattle.cat_target.specs.Base.{as_base};
ghost use Rattle.cat_target.specs.Resolve as spec;

use crate::base::Base;
use cat_tree::text::Text;
use cat_types::names::is_shelf_name;
use std::alloc::{AllocError, Global};
use url::{ParseError, ParseResult, Url};

/// The shelf name that a target of this type has, seen from the base, whose URL is given so that it is parsed once for
/// all targets. None where it has none: a URL that doesn't parse or is given by over 2,048 bytes, a path that leads above
/// the root or to it, or a name that may not stand on the shelf. The only refusal is want of memory.
#[tactic(auto, unfolding(crate::specs::Resolve::name_of))]
pub fn name_of(
    alloc: Global,
    base: Option<Base<'_>>,
    url: Option<&Url>,
    kind: &str,
    target: &str,
) -> Result<Option<Text>, AllocError>
    requires { option_copied url ≡ spec.base_url (option_map as_base base) }
    ensures { IfOk result (λ name. name
        ≡ spec.name_of (option_map as_base base.entry) kind.now target.now) }
{
    match joined_name(alloc, base, url, kind, target)? {
        Some(name) => {
            if is_shelf_name(name.as_str()) {
                Ok(Some(name))
            } else {
                Ok(None)
            }
        }
        None => Ok(None),
    }
}

#[tactic(auto, unfolding(crate::specs::Resolve::joined_name))]
fn joined_name(
    alloc: Global,
    base: Option<Base<'_>>,
    url: Option<&Url>,
    kind: &str,
    target: &str,
) -> Result<Option<Text>, AllocError>
    requires { option_copied url ≡ spec.base_url (option_map as_base base) }
    ensures { IfOk result (λ name. name
        ≡ spec.joined_name (option_map as_base base.entry) kind.now target.now) }
{
    if kind == "url" {
        url_name(alloc, url, target)
    } else if kind == "file" {
        file_name(alloc, base, target)
    } else {
        let mut name = String::from_str(alloc, kind)?;
        name.push_str(":")?;
        name.push_str(target)?;
        Ok(Some(Text::from_string(name)))
    }
}

// ---- targets of type `url`

// What the crate answers. An URL of 4 GB is want of room, as want of memory is.
fn given(alloc: Global, base: Option<&Url>, text: &str) -> ParseResult<Url>
    ensures { Gives result (parse_url (option_copied base.entry) text.now) }
{
    match base {
        Some(base) => base.join(text),
        None => Url::parse(alloc, text),
    }
}

fn parsed(alloc: Global, base: Option<&Url>, text: &str) -> Result<Option<Url>, AllocError>
    ensures { IfOk result (λ url. url ≡ result_ok (parse_url (option_copied base.entry) text.now)) }
{
    match given(alloc, base, text) {
        Ok(url) => Ok(Some(url)),
        Err(ParseError::OutOfMemory | ParseError::Overflow) => Err(AllocError),
        Err(_) => Ok(None),
    }
}

/// The URL of a base of type `url`, where its target parses. The only refusal is want of memory.
#[tactic(auto, unfolding(crate::specs::Resolve::base_url))]
pub fn base_url(alloc: Global, base: Option<Base<'_>>) -> Result<Option<Url>, AllocError>
    ensures { IfOk result (λ url. url ≡ spec.base_url (option_map as_base base.entry)) }
{
    match base {
        Some(base) => {
            if base.kind == "url" {
                parsed(alloc, None, base.target)
            } else {
                Ok(None)
            }
        }
        None => Ok(None),
    }
}

#[tactic(auto, unfolding(crate::specs::Resolve::url_name))]
fn url_name(alloc: Global, base: Option<&Url>, target: &str) -> Result<Option<Text>, AllocError>
    ensures { IfOk result (λ name. name ≡ spec.url_name (option_copied base.entry) target.now) }
{
    if target.len() > 2048 {
        return Ok(None);
    }
    match parsed(alloc, base, target)? {
        Some(url) => {
            let mut name = String::from_str(alloc, "url:")?;
            name.push_str(url.as_str())?;
            Ok(Some(Text::from_string(name)))
        }
        None => Ok(None),
    }
}

// ---- targets of type `file`

#[tactic(auto, unfolding(crate::specs::Resolve::file_name))]
fn file_name(
    alloc: Global,
    base: Option<Base<'_>>,
    target: &str,
) -> Result<Option<Text>, AllocError>
    ensures { IfOk result (λ name. name
        ≡ spec.file_name (option_map as_base base.entry) target.now) }
{
    let mut path = pieces_before(alloc, base, target)?;
    let own = pieces(alloc, target)?;
    path.extend_from_slice(own.as_slice())?;
    match walked(alloc, path.as_slice())? {
        Some(done) => {
            let text = file_text(alloc, done.as_slice())?;
            Ok(Some(Text::from_string(text)))
        }
        None => Ok(None),
    }
}

// What stands between the slashes.
fn pieces<'a>(alloc: Global, path: &'a str) -> Result<Vec<&'a str>, AllocError>
    ensures { IfOk result (λ v. map (λ p. p.now) v.items ≡ spec.pieces path.now) }
{
    path.split('/').collect(alloc)
}

// The pieces after these steps, unless one leads above the root.
fn walked<'a>(alloc: Global, path: &[&'a str]) -> Result<Option<Vec<&'a str>>, AllocError>
    ensures { IfOk result (λ done. option_map (λ v. map (λ p. p.now) v.items) done
        ≡ spec.steps [] (map (λ p. p.now) path.now)) }
{
    let mut done = Vec::new(alloc);
    for piece in path {
        if !step(&mut done, piece)? {
            return Ok(None);
        }
    }
    Ok(Some(done))
}

// The pieces of the base that go before those of the target.
#[tactic(auto, unfolding(crate::specs::Resolve::pieces_before))]
fn pieces_before<'a>(
    alloc: Global,
    base: Option<Base<'a>>,
    target: &str,
) -> Result<Vec<&'a str>, AllocError>
    ensures { IfOk result (λ v. map (λ p. p.now) v.items
        ≡ spec.pieces_before (option_map as_base base.entry) target.now) }
{
    match base {
        Some(base) => {
            if base.kind == "file" && !target.as_bytes().starts_with(b"/") {
                pieces_but_last(alloc, base.target)
            } else {
                Ok(Vec::new(alloc))
            }
        }
        None => Ok(Vec::new(alloc)),
    }
}

fn pieces_but_last<'a>(alloc: Global, path: &'a str) -> Result<Vec<&'a str>, AllocError>
    ensures { IfOk result (λ v. map (λ p. p.now) v.items ≡ spec.all_but_last (spec.pieces path.now)) }
{
    let mut pieces = pieces(alloc, path)?;
    let _ = pieces.pop();
    Ok(pieces)
}

// Takes the step of a piece, unless it leads above the root.
#[tactic(auto, unfolding(crate::specs::Resolve::step))]
fn step<'a>(done: &mut Vec<&'a str>, piece: &'a str) -> Result<bool, AllocError>
    ensures { IfOk result (λ went. spec.step (map (λ p. p.now) done.old.items) piece.now
        ≡ spec.if_went went (map (λ p. p.now) done.new.items)) }
{
    if piece.is_empty() || piece == "." {
        return Ok(true);
    }
    if piece == ".." {
        return Ok(done.pop().is_some());
    }
    done.push(piece)?;
    Ok(true)
}

// `file:`, and `/` before each piece.
fn file_text(alloc: Global, path: &[&str]) -> Result<String, AllocError>
    ensures { IfOk result (λ s. string_bytes s ≡ spec.file_text (map (λ p. p.now) path.now)) }
{
    let mut text = String::from_str(alloc, "file:")?;
    for piece in path {
        text.push_str("/")?;
        text.push_str(piece)?;
    }
    Ok(text)
}
