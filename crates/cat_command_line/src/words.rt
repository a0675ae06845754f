//! The words of a command line.
ghost use Rattle.std.specs.Prelude.{◌≡◌, ◌<◌, ◌^◌, IfOk, Option, map, option_map, string_bytes};
ghost use Rattle.cat_command_line.specs.Reads.{Reads};
ghost use Rattle.cat_command_line.specs.Words as spec;
ghost use Rattle.cat_command_line.specs.Words.{IsWithin};

use crate::given::{catalogue_given, mirror_given, sample_given, server_given};
use crate::options::{CatalogueOptions, Serving, catalogue_options, serving_of};
use cat_session_lines::argument::number;
use std::alloc::{AllocError, Global};

/// The greatest seed, and one more.
const SEEDS: u64 = 1 << 31;

/// The most Components of a sample.
const MOST_COMPONENTS: u64 = 50_000;

/// A sample catalogue.
#[derive(Clone, Copy, Debug, Drop, PartialEq, Eq)]
pub struct Sample {
    /// What it is drawn from: below 2^31.
    pub seed: u64,
    /// How many Components it has: 1 to 50,000.
    pub count: u64,
}

/// A command of the program, with all that its words say.
#[derive(Drop)]
pub enum Command {
    /// Answer the lines of the input.
    Session(CatalogueOptions),
    /// Answer the HTTP messages of the input.
    Wire(CatalogueOptions),
    /// Serve HTTP connections at an address, with workers beside them.
    Serve(Serving),
    /// Follow the feed whose changes are the lines of the input.
    Mirror,
    /// Make a sample, and say what came of it.
    Sample(Sample),
}

/// Why words give no command.
#[derive(Clone, Copy, Debug, Drop, PartialEq, Eq)]
pub enum WordFault {
    /// They are none.
    Usage,
    /// Memory is wanted.
    NoMemory,
}

impl From<AllocError> for WordFault {
    ghost use Rattle.std.specs.Prelude.{◌≡◌};
    ghost use Rattle.cat_command_line.specs.declared.words.WordFault.TheVariants.{NoMemory};

    ghost from_gives = { λ _ fault. fault ≡ NoMemory };

    fn from(_refused: AllocError) -> WordFault {
        WordFault::NoMemory
    }
}

// A session or a connection: the catalogue that it is over.
fn catalogue<'a>(
    alloc: Global,
    name: &'a str,
    words: &'a [String],
) -> Result<CatalogueOptions, WordFault>
    ensures { Reads (spec.catalogue name.entry.now (map string_bytes words.entry.now)) result }
{
    let given = catalogue_given(alloc, name, words)?;
    catalogue_options(alloc, &given)
}

fn session(alloc: Global, words: &[String]) -> Result<Command, WordFault>
    ensures { Reads (spec.session (map string_bytes words.now)) result }
{
    Ok(Command::Session(catalogue(alloc, "session", words)?))
}

fn wire(alloc: Global, words: &[String]) -> Result<Command, WordFault>
    ensures { Reads (spec.wire (map string_bytes words.now)) result }
{
    Ok(Command::Wire(catalogue(alloc, "wire", words)?))
}

fn server(alloc: Global, words: &[String]) -> Result<Serving, WordFault>
    ensures value { Reads (spec.server (map string_bytes words.now)) result }
    ensures within { IfOk result (λ s. 0 < s.server.connections) }
{
    let given = server_given(alloc, "serve", words)?;
    serving_of(alloc, &given)
}

fn serve(alloc: Global, words: &[String]) -> Result<Command, WordFault>
    ensures value { Reads (spec.serve (map string_bytes words.now)) result }
    ensures within { IfOk result IsWithin }
{
    Ok(Command::Serve(server(alloc, words)?))
}

fn mirror(alloc: Global, words: &[String]) -> Result<Command, WordFault>
    ensures { Reads (spec.mirror (map string_bytes words.now)) result }
{
    let _given = mirror_given(alloc, "mirror", words)?;
    Ok(Command::Mirror)
}

// A sample whose numbers are within their bounds.
fn sample_of(seed: u64, count: u64) -> Result<Sample, WordFault>
    ensures value { Reads (spec.sample_of seed count) result }
    ensures within { IfOk result (λ sample. sample.seed < 2 ^ 31) }
{
    if seed < SEEDS && (0 < count && count <= MOST_COMPONENTS) {
        Ok(Sample { seed, count })
    } else {
        Err(WordFault::Usage)
    }
}

// The number of a word that was given.
fn number_of(word: Option<&str>) -> Result<u64, WordFault>
    ensures { Reads (spec.number_of (option_map (λ s. s.now) word.entry)) result }
{
    match word {
        Some(word) => number(word).ok_or(WordFault::Usage),
        None => Err(WordFault::Usage),
    }
}

fn sample_numbers(alloc: Global, words: &[String]) -> Result<Sample, WordFault>
    ensures value { Reads (spec.sample_numbers (map string_bytes words.now)) result }
    ensures within { IfOk result (λ sample. sample.seed < 2 ^ 31) }
{
    let given = sample_given(alloc, "sample", words)?;
    let seed = number_of(given.text("seed"))?;
    let count = number_of(given.text("count"))?;
    sample_of(seed, count)
}

fn sample_command(alloc: Global, words: &[String]) -> Result<Command, WordFault>
    ensures value { Reads (spec.sample_command (map string_bytes words.now)) result }
    ensures within { IfOk result IsWithin }
{
    Ok(Command::Sample(sample_numbers(alloc, words)?))
}

// The command that a word names, with the words that it stands before.
fn command_named(alloc: Global, name: &str, words: &[String]) -> Result<Command, WordFault>
    ensures value { Reads (spec.command_named name.now (map string_bytes words.now)) result }
    ensures within { IfOk result IsWithin }
{
    match name {
        "session" => session(alloc, words),
        "wire" => wire(alloc, words),
        "serve" => serve(alloc, words),
        "mirror" => mirror(alloc, words),
        "sample" => sample_command(alloc, words),
        _ => Err(WordFault::Usage),
    }
}

/// The command of the words, if they are one. The first of them names it, and clap reads those behind it, of which each option stands once at most, as `--NAME VALUE`
/// or `--NAME=VALUE`, in any order: `session` and `wire` with `--orphans` and `keep` or `delete`, and with `--store` or `--journal` and a file; `serve` with an address, the same
/// options, and `--workers` and `--connections` with 1 to 16; `mirror` alone; and `sample` with a seed below 2^31 and a count of 1 to 50,000. Numbers are 1 to 20 decimal
/// digits.
pub fn command_of(alloc: Global, words: &[String]) -> Result<Command, WordFault>
    ensures value { Reads (spec.command_of (map string_bytes words.now)) result }
    ensures within { IfOk result IsWithin }
{
    match words {
        [] => Err(WordFault::Usage),
        [name, ..] => command_named(alloc, name.as_str(), words),
    }
}
