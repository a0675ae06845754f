//! Paths, and what they name.
ghost use Rattle.std.specs.Prelude.{◌≡◌, ◌⊎◌, option_map, IfOk, IfErr, Ok, Err};
ghost use Rattle.cat_requests.specs.Paths as spec;

use crate::refusal::Refusal;
use crate::routes::{Fixed, Route, Routes};
use cat_inputs::form::Form;
use cat_page::file::{File, file_at};
use cat_tree::text::Text;
use percent_encoding::{DecodeError, percent_decode};
use std::alloc::Global;

/// What a path names, with its pieces as texts.
#[derive(Drop)]
pub enum Resource {
    /// A path without pieces.
    Fixed(Fixed),
    /// An entity by its unique id.
    ByUid(Text),
    /// An entity by kind, namespace and name.
    ByName(Text, Text, Text),
    /// A provider's name, and the form of its mutations.
    Mutation(Text, Form),
    /// A file of the page.
    Page(File),
}

// What stands before the first slash and after it, if there is one.
fn halves(text: &str) -> Option<(&str, &str)>
    ensures { option_map (λ p. (p.0.now, p.1.now)) result ≡ spec.halves text.now }
{
    match text.split_once('/') {
        Some((first, rest)) => Some((first, rest)),
        None => None,
    }
}

// What stands before the first slash, or the whole text.
fn front(text: &str) -> &str
    ensures { result.now ≡ spec.front text.now }
{
    match halves(text) {
        Some((first, _)) => first,
        None => text,
    }
}

// What follows the first slash; nothing where there is none.
fn behind(text: &str) -> &str
    ensures { result.now ≡ spec.behind text.now }
{
    match halves(text) {
        Some((_, rest)) => rest,
        None => "",
    }
}

// The text that a piece stands for.
fn decoded(alloc: Global, piece: &str) -> Result<Text, Refusal>
    ensures ok { IfOk result (λ t. spec.decoded piece.now ≡ Ok t) }
    ensures err { IfErr result (λ e. (spec.decoded piece.now ≡ Err e) ⊎ (e ≡ Refusal.NoMemory)) }
{
    match percent_decode(piece.as_bytes()).decode_utf8(alloc) {
        Ok(text) => Ok(Text::from_string(text.into_owned(alloc)?)),
        Err(DecodeError::OutOfMemory) => Err(Refusal::NoMemory),
        Err(DecodeError::Utf8(_)) => Err(Refusal::Route),
    }
}

fn name_in(alloc: Global, pieces: &str) -> Result<Resource, Refusal>
    ensures ok { IfOk result (λ r. spec.name_in pieces.now ≡ Ok r) }
    ensures err { IfErr result (λ e. (spec.name_in pieces.now ≡ Err e) ⊎ (e ≡ Refusal.NoMemory)) }
{
    let kind = decoded(alloc, front(pieces))?;
    let namespace = decoded(alloc, front(behind(pieces)))?;
    let name = decoded(alloc, front(behind(behind(pieces))))?;
    Ok(Resource::ByName(kind, namespace, name))
}

// What a path with this route names.
fn named(alloc: Global, route: Route, path: &str) -> Result<Resource, Refusal>
    ensures ok { IfOk result (λ r. spec.named_by route path.now ≡ Ok r) }
    ensures err { IfErr result (λ e. (spec.named_by route path.now ≡ Err e) ⊎ (e ≡ Refusal.NoMemory)) }
{
    let pieces = behind(behind(path));
    match route {
        Route::Fixed(fixed) => Ok(Resource::Fixed(fixed)),
        Route::Mutation(form) => Ok(Resource::Mutation(decoded(alloc, front(pieces))?, form)),
        Route::ByUid => Ok(Resource::ByUid(decoded(alloc, front(behind(pieces)))?)),
        Route::ByName => name_in(alloc, behind(pieces)),
    }
}

// What a path with this route names; none is refused.
fn routed(alloc: Global, route: Option<Route>, path: &str) -> Result<Resource, Refusal>
    ensures ok { IfOk result (λ r. spec.resource_by route path.now ≡ Ok r) }
    ensures err { IfErr result (λ e. (spec.resource_by route path.now ≡ Err e) ⊎ (e ≡ Refusal.NoMemory)) }
{
    match route {
        Some(route) => named(alloc, route, path),
        None => Err(Refusal::Route),
    }
}

/// What a path names: a file of the page, or what its route says. It is `Route` where no route fits, or where the percent escapes
/// of a piece don't decode to UTF-8.
pub fn resource_of(alloc: Global, routes: &Routes, path: &str) -> Result<Resource, Refusal>
    ensures ok { IfOk result (λ r. spec.resource_of path.now ≡ Ok r) }
    ensures err { IfErr result (λ e. (spec.resource_of path.now ≡ Err e) ⊎ (e ≡ Refusal.NoMemory)) }
{
    match file_at(path.as_bytes()) {
        Some(file) => Ok(Resource::Page(file)),
        None => routed(alloc, routes.route_of(path), path),
    }
}
