//! What the options of a command say.
ghost use Rattle.std.specs.Prelude.{◌≡◌, ◌<◌, IfOk, Option, option_map};
ghost use Rattle.cat_command_line.specs.Options as spec;
ghost use Rattle.cat_command_line.specs.Reads.{Reads};

use crate::given::Given;
use crate::words::WordFault;
use cat_keeper::keeper::Place;
use cat_model::types::OrphanRule;
use cat_session_lines::argument::number;
use cat_tree::text::Text;
use std::alloc::Global;

/// The most pairs of workers, and the most connections at once.
const MOST: u64 = 16;

/// How many pairs of workers there are, where no option says it.
const WORKERS: u64 = 2;

/// How many connections are served at once, where no option says it.
const CONNECTIONS: u64 = 4;

/// Which catalogue a command is over.
#[derive(Drop)]
pub struct CatalogueOptions {
    /// What becomes of orphans, if an option says it.
    pub orphans: Option<OrphanRule>,
    /// Where the catalogue is kept, if it is.
    pub place: Option<Place>,
}

/// How a server serves.
#[derive(Clone, Copy, Debug, Drop, PartialEq, Eq)]
pub struct ServerOptions {
    /// How many pairs of workers there are: 1 to 16.
    pub workers: u64,
    /// How many connections are served at once: 1 to 16.
    pub connections: u64,
}

/// A server: where it listens, over which catalogue, and how it serves.
#[derive(Drop)]
pub struct Serving {
    /// The address at which it listens.
    pub address: Text,
    /// The catalogue that it serves.
    pub catalogue: CatalogueOptions,
    /// How it serves.
    pub server: ServerOptions,
}

// The rule for orphans that a word names.
fn rule_of(word: &str) -> Option<OrphanRule>
    ensures { result ≡ spec.rule_of word.now }
{
    match word {
        "keep" => Some(OrphanRule::Keep),
        "delete" => Some(OrphanRule::Delete),
        _ => None,
    }
}

// The rule for orphans that was given, if one was.
fn orphans(word: Option<&str>) -> Result<Option<OrphanRule>, WordFault>
    ensures { Reads (spec.orphans (option_map (λ s. s.now) word.entry)) result }
{
    match word {
        None => Ok(None),
        Some(word) => match rule_of(word) {
            Some(rule) => Ok(Some(rule)),
            None => Err(WordFault::Usage),
        },
    }
}

// The place that was given, if one was: a database or a journal.
fn place(
    alloc: Global,
    store: Option<&str>,
    journal: Option<&str>,
) -> Result<Option<Place>, WordFault>
    ensures { Reads (spec.place (option_map (λ s. s.now) store.entry) (option_map (λ s. s.now) journal.entry)) result }
{
    match (store, journal) {
        (None, None) => Ok(None),
        (Some(file), None) => Ok(Some(Place::File(Text::of(alloc, file)?))),
        (None, Some(file)) => Ok(Some(Place::Journal(Text::of(alloc, file)?))),
        (Some(_), Some(_)) => Err(WordFault::Usage),
    }
}

/// Which catalogue a command is over.
pub(crate) fn catalogue_options(alloc: Global, given: &Given) -> Result<CatalogueOptions, WordFault>
    ensures { Reads (spec.catalogue_options given.now) result }
{
    let orphans = orphans(given.text("orphans"))?;
    let place = place(alloc, given.text("store"), given.text("journal"))?;
    Ok(CatalogueOptions { orphans, place })
}

// A number of workers or of connections.
fn crew_of(count: u64) -> Result<u64, WordFault>
    ensures value { Reads (spec.crew_of count) result }
    ensures within { IfOk result (λ n. 0 < n) }
{
    if 0 < count && count <= MOST {
        Ok(count)
    } else {
        Err(WordFault::Usage)
    }
}

// The number of workers or of connections that was given, or else the usual one.
fn crew(word: Option<&str>, usual: u64) -> Result<u64, WordFault>
    requires { 0 < usual }
    ensures value { Reads (spec.crew (option_map (λ s. s.now) word.entry) usual) result }
    ensures within { IfOk result (λ n. 0 < n) }
{
    match word {
        None => Ok(usual),
        Some(word) => match number(word) {
            Some(count) => crew_of(count),
            None => Err(WordFault::Usage),
        },
    }
}

// How a server serves.
fn server_options(given: &Given) -> Result<ServerOptions, WordFault>
    ensures value { Reads (spec.server_options given.now) result }
    ensures within { IfOk result (λ options. 0 < options.connections) }
{
    let workers = crew(given.text("workers"), WORKERS)?;
    let connections = crew(given.text("connections"), CONNECTIONS)?;
    Ok(ServerOptions {
        workers,
        connections,
    })
}

// The address that was given.
fn address(alloc: Global, word: Option<&str>) -> Result<Text, WordFault>
    ensures { Reads (option_map (λ s. s.now) word.entry) result }
{
    match word {
        Some(address) => Ok(Text::of(alloc, address)?),
        None => Err(WordFault::Usage),
    }
}

/// A server, as its address and its options say.
pub(crate) fn serving_of(alloc: Global, given: &Given) -> Result<Serving, WordFault>
    ensures value { Reads (spec.serving_of given.now) result }
    ensures within { IfOk result (λ s. 0 < s.server.connections) }
{
    let address = address(alloc, given.text("address"))?;
    let catalogue = catalogue_options(alloc, given)?;
    let server = server_options(given)?;
    Ok(Serving {
        address,
        catalogue,
        server,
    })
}
