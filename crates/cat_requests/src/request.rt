//! What messages ask for.
ghost use Rattle.std.specs.Prelude.{◌≡◌, ◌⊎◌, map, IfOk, IfErr, IsTrue, Ok, Err, string_bytes};
ghost use Rattle.cat_types.specs.Names.{is_shelf_name};
ghost use Rattle.cat_requests.specs.Requests as spec;

use crate::body::{many_of, reference_of};
use crate::parameters::{parameters, values_named};
use crate::path::{Resource, resource_of};
use crate::refusal::{Methods, Refusal, input_refusal, query_refusal};
use crate::routes::{Fixed, Routes};
use crate::uid::number_of_uid;
use cat_access::access::Access;
use cat_access::browser::is_admitted;
use cat_feed::change::Since;
use cat_feed::place::since_of;
use cat_http::message::Message;
use cat_inputs::form::Form;
use cat_inputs::input::read_mutation;
use cat_page::file::File;
use cat_pages::query::Query;
use cat_query::ask::Ask;
use cat_session_lines::argument::utf8_in;
use cat_session_lines::query::query_of;
use cat_tree::text::Text;
use cat_types::fault::RefFault;
use cat_types::input::Mutation;
use cat_types::names::{is_name, is_shelf_name};
use cat_types::reference::{Ref, parse};
use std::alloc::{AllocError, Global};

/// What a message asks for.
#[derive(Drop)]
pub enum Request {
    /// Apply a provider's mutation.
    Mutate(Text, Mutation),
    /// Put a text on the shelf, under a shelf name.
    ShelfPut(Text, Text),
    /// Take the text of this shelf name away.
    ShelfDrop(Text),
    /// Make a record due at once.
    Refresh(Ref),
    /// Delete the orphan with this number, or let its record begin anew.
    Forget(u64),
    /// Process and stitch until nothing is due.
    Settle,
    /// Ask the catalogue.
    Ask(Ask),
    /// Tell what changed since a place, or every document without one.
    Changes(Option<Since>),
    /// Show a file of the page.
    Page(File),
}

/// A method, where HEAD asks as GET does.
#[derive(Clone, Copy, Debug, Drop, PartialEq, Eq)]
pub enum Verb {
    Get,
    Put,
    Post,
    Delete,
}

fn verb_of(method: &str) -> Option<Verb>
    ensures { result ≡ spec.verb_of method.now }
{
    match method {
        "GET" | "HEAD" => Some(Verb::Get),
        "PUT" => Some(Verb::Put),
        "POST" => Some(Verb::Post),
        "DELETE" => Some(Verb::Delete),
        _ => None,
    }
}

fn reads(verb: Option<Verb>) -> Result<(), Refusal>
    ensures { result ≡ spec.reads verb }
{
    match verb {
        Some(Verb::Get) => Ok(()),
        _ => Err(Refusal::Method(Methods::Reads)),
    }
}

fn posts(verb: Option<Verb>) -> Result<(), Refusal>
    ensures { result ≡ spec.posts verb }
{
    match verb {
        Some(Verb::Post) => Ok(()),
        _ => Err(Refusal::Method(Methods::Posts)),
    }
}

fn query(alloc: Global, message: &Message) -> Result<Query, Refusal>
    ensures ok { IfOk result (λ q. spec.query message.now ≡ Ok q) }
    ensures err { IfErr result (λ e. (spec.query message.now ≡ Err e) ⊎ (e ≡ Refusal.NoMemory)) }
{
    match query_of(alloc, message.query.as_str()) {
        Ok(query) => Ok(query),
        Err(fault) => Err(query_refusal(fault)),
    }
}

fn number(uid: &Text) -> Result<u64, Refusal>
    ensures { result ≡ spec.number uid.now }
{
    match number_of_uid(uid.as_str()) {
        Some(number) => Ok(number),
        None => Err(Refusal::Entity),
    }
}

fn full_name(
    alloc: Global,
    kind: &Text,
    namespace: &Text,
    name: &Text,
) -> Result<String, AllocError>
    ensures { IfOk result (λ s. string_bytes s ≡ spec.full_name kind.now namespace.now name.now) }
{
    let mut text = String::from_str(alloc, kind.as_str())?;
    text.push_str(":")?;
    text.push_str(namespace.as_str())?;
    text.push_str("/")?;
    text.push_str(name.as_str())?;
    Ok(text)
}

fn entity(alloc: Global, kind: &Text, namespace: &Text, name: &Text) -> Result<Ref, Refusal>
    ensures ok { IfOk result (λ r. spec.entity kind.now namespace.now name.now ≡ Ok r) }
    ensures err { IfErr result (λ e. (spec.entity kind.now namespace.now name.now ≡ Err e)
        ⊎ (e ≡ Refusal.NoMemory)) }
{
    let text = full_name(alloc, kind, namespace, name)?;
    match parse(alloc, text.as_str(), None, "default") {
        Ok(reference) => Ok(reference),
        Err(RefFault::NoMemory) => Err(Refusal::NoMemory),
        Err(_) => Err(Refusal::Entity),
    }
}

fn name_among(alloc: Global, names: &[&str]) -> Result<Text, Refusal>
    ensures ok { IfOk result (λ t. spec.name_among (map (λ t. t.now) names.now) ≡ Ok t) }
    ensures err { IfErr result (λ e. (spec.name_among (map (λ t. t.now) names.now) ≡ Err e)
        ⊎ (e ≡ Refusal.NoMemory)) }
    ensures ready { IfOk result (λ t. IsTrue (is_shelf_name t)) }
{
    match names {
        [name] => {
            if is_shelf_name(name) {
                Ok(Text::of(alloc, name)?)
            } else {
                Err(Refusal::Name)
            }
        }
        _ => Err(Refusal::Name),
    }
}

// The shelf name of a message.
fn shelf_name(alloc: Global, message: &Message) -> Result<Text, Refusal>
    ensures ok { IfOk result (λ t. spec.shelf_name message.now ≡ Ok t) }
    ensures err { IfErr result (λ e. (spec.shelf_name message.now ≡ Err e) ⊎ (e ≡ Refusal.NoMemory)) }
    ensures ready { IfOk result (λ t. IsTrue (is_shelf_name t)) }
{
    let parameters = parameters(alloc, message.query.as_str())?;
    let names = values_named(alloc, "name", parameters.as_slice())?;
    name_among(alloc, names.as_slice())
}

fn put(alloc: Global, message: &Message) -> Result<Request, Refusal>
    ensures ok { IfOk result (λ r. spec.put_by message.now.body (spec.shelf_name message.now) ≡ Ok r) }
    ensures err { IfErr result (λ e. (spec.put_by message.now.body (spec.shelf_name message.now) ≡ Err e)
        ⊎ (e ≡ Refusal.NoMemory)) }
    ensures ready { IfOk result spec.IsReady }
{
    let name = shelf_name(alloc, message)?;
    match utf8_in(message.body.as_slice()) {
        Some(text) => Ok(Request::ShelfPut(name, Text::of(alloc, text)?)),
        None => Err(Refusal::Text),
    }
}

fn mutate(alloc: Global, provider: Text, form: Form, message: &Message) -> Result<Request, Refusal>
    ensures ok { IfOk result (λ r. spec.mutate provider form message.now ≡ Ok r) }
    ensures err { IfErr result (λ e. (spec.mutate provider form message.now ≡ Err e)
        ⊎ (e ≡ Refusal.NoMemory)) }
    ensures ready { IfOk result spec.IsReady }
{
    if !is_name(provider.as_str()) {
        return Err(Refusal::Name);
    }
    match read_mutation(alloc, form, message.body.as_slice()) {
        Ok(mutation) => Ok(Request::Mutate(provider, mutation)),
        Err(fault) => Err(input_refusal(fault)),
    }
}

fn place_among(places: &[&str]) -> Result<Option<Since>, Refusal>
    ensures { result ≡ spec.place_among (map (λ t. t.now) places.now) }
{
    match places {
        [] => Ok(None),
        [place] => match since_of(place) {
            Some(since) => Ok(Some(since)),
            None => Err(Refusal::Place),
        },
        _ => Err(Refusal::Place),
    }
}

// The place from which a message asks for changes, if it says one.
fn place(alloc: Global, message: &Message) -> Result<Option<Since>, Refusal>
    ensures ok { IfOk result (λ s. spec.place_of message.now ≡ Ok s) }
    ensures err { IfErr result (λ e. (spec.place_of message.now ≡ Err e) ⊎ (e ≡ Refusal.NoMemory)) }
{
    let parameters = parameters(alloc, message.query.as_str())?;
    let places = values_named(alloc, "since", parameters.as_slice())?;
    place_among(places.as_slice())
}

fn shelved(alloc: Global, verb: Option<Verb>, message: &Message) -> Result<Request, Refusal>
    ensures ok { IfOk result (λ r. spec.shelved_by verb message.now ≡ Ok r) }
    ensures err { IfErr result (λ e. (spec.shelved_by verb message.now ≡ Err e) ⊎ (e ≡ Refusal.NoMemory)) }
    ensures ready { IfOk result spec.IsReady }
{
    match verb {
        Some(Verb::Put) => put(alloc, message),
        Some(Verb::Delete) => Ok(Request::ShelfDrop(shelf_name(alloc, message)?)),
        _ => Err(Refusal::Method(Methods::PutsAndDeletes)),
    }
}

fn numbered(verb: Option<Verb>, uid: &Text) -> Result<Request, Refusal>
    ensures value { result ≡ spec.numbered_by verb uid.now }
    ensures ready { IfOk result spec.IsReady }
{
    match verb {
        Some(Verb::Get) => Ok(Request::Ask(Ask::Number(number(uid)?))),
        Some(Verb::Delete) => Ok(Request::Forget(number(uid)?)),
        _ => Err(Refusal::Method(Methods::ReadsAndDeletes)),
    }
}

// What a question of a path without pieces asks.
fn question(alloc: Global, fixed: Fixed, message: &Message) -> Result<Ask, Refusal>
    ensures ok { IfOk result (λ a. spec.question fixed message.now ≡ Ok a) }
    ensures err { IfErr result (λ e. (spec.question fixed message.now ≡ Err e) ⊎ (e ≡ Refusal.NoMemory)) }
{
    match fixed {
        Fixed::Entities => Ok(Ask::List(query(alloc, message)?)),
        Fixed::ByQuery => Ok(Ask::Page(query(alloc, message)?)),
        Fixed::EntityFacets => Ok(Ask::Facets(query(alloc, message)?)),
        Fixed::ByRefs => many_of(alloc, message.body.as_slice()),
        Fixed::Conflicts => Ok(Ask::Conflicts),
        Fixed::Failed => Ok(Ask::Failed),
        Fixed::Orphans => Ok(Ask::Orphans),
        Fixed::State => Ok(Ask::State),
        _ => Err(Refusal::Route),
    }
}

fn fixed(
    alloc: Global,
    fixed: Fixed,
    verb: Option<Verb>,
    message: &Message,
) -> Result<Request, Refusal>
    ensures ok { IfOk result (λ r. spec.fixed_by fixed verb message.now ≡ Ok r) }
    ensures err { IfErr result (λ e. (spec.fixed_by fixed verb message.now ≡ Err e) ⊎ (e ≡ Refusal.NoMemory)) }
    ensures ready { IfOk result spec.IsReady }
{
    match fixed {
        Fixed::Shelf => shelved(alloc, verb, message),
        Fixed::Settle => {
            posts(verb)?;
            Ok(Request::Settle)
        }
        Fixed::Refresh => {
            posts(verb)?;
            Ok(Request::Refresh(reference_of(alloc, message.body.as_slice())?))
        }
        Fixed::ByRefs => {
            posts(verb)?;
            Ok(Request::Ask(question(alloc, fixed, message)?))
        }
        Fixed::Changes => {
            reads(verb)?;
            Ok(Request::Changes(place(alloc, message)?))
        }
        _ => {
            reads(verb)?;
            Ok(Request::Ask(question(alloc, fixed, message)?))
        }
    }
}

fn asked(
    alloc: Global,
    resource: Resource,
    verb: Option<Verb>,
    message: &Message,
) -> Result<Request, Refusal>
    ensures ok { IfOk result (λ r. spec.resource_asked resource verb message.now ≡ Ok r) }
    ensures err { IfErr result (λ e. (spec.resource_asked resource verb message.now ≡ Err e)
        ⊎ (e ≡ Refusal.NoMemory)) }
    ensures ready { IfOk result spec.IsReady }
{
    match resource {
        Resource::Fixed(path) => fixed(alloc, path, verb, message),
        Resource::ByUid(uid) => numbered(verb, &uid),
        Resource::ByName(kind, namespace, name) => {
            reads(verb)?;
            Ok(Request::Ask(Ask::Get(entity(alloc, &kind, &namespace, &name)?)))
        }
        Resource::Mutation(provider, form) => {
            posts(verb)?;
            mutate(alloc, provider, form, message)
        }
        Resource::Page(file) => {
            reads(verb)?;
            Ok(Request::Page(file))
        }
    }
}

/// What a message asks for, or the first refusal that holds: of its sender, its path, its method, and what the request takes.
#[tactic(auto, unfolding(crate::specs::Requests::request_of))]
pub fn request_of(alloc: Global, routes: &Routes, message: &Message) -> Result<Request, Refusal>
    ensures ok { IfOk result (λ r. spec.request_of message.now ≡ Ok r) }
    ensures err { IfErr result (λ e. (spec.request_of message.now ≡ Err e) ⊎ (e ≡ Refusal.NoMemory)) }
    ensures ready { IfOk result spec.IsReady }
{
    if !is_admitted(&Access::none(alloc), message) {
        return Err(Refusal::Origin);
    }
    let resource = resource_of(alloc, routes, message.path.as_str())?;
    asked(alloc, resource, verb_of(message.method.as_str()), message)
}
