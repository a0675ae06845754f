//! What `clap` finds among the words of a command line.
ghost use Rattle.std.specs.Prelude.{◌≡◌, IfOk, List, map, option_map, string_bytes, true};
ghost use Rattle.clap.specs.Faults.{is_simple_and_free};
ghost use Rattle.clap.specs.Simple.{app_of, with_rule};
ghost use Rattle.clap.specs.Walk.{first_of};
ghost use Rattle.cat_command_line.specs.Given.{bare, catalogue_words, mirror_words, option, positional, read, sample_words, server_words};
ghost use Rattle.cat_command_line.specs.Reads.{Reads};

use crate::words::WordFault;
use clap::error::ErrorKind;
use clap::{Arg, ArgMatches, Command};
use std::alloc::{AllocError, Global};
use std::marker::Model;

/// The options and words that were given. Contracts see a row for each.
#[derive(Drop)]
pub(crate) struct Given<'a> {
    matches: ArgMatches<'a>,
}

impl<'a> Model for Given<'a> {
    ghost use Rattle.std.specs.Prelude.{List};
    ghost use Rattle.clap.specs.Matches.{found_of};
    ghost use Rattle.clap.specs.Walk.{Row, rows_of};

    ghost Value = { List Row };

    ghost view = { λ g. rows_of (found_of g.matches) };
}

impl<'a> Given<'a> {
    /// The text that was given under a name.
    pub(crate) fn text(&self, name: &str) -> Option<&'a str>
        ensures { option_map (λ s. s.now) result ≡ first_of name.now self.now }
    {
        self.matches.get_str(name)
    }
}

// A command without options, of clap's own neither.
fn without_options<'a>(alloc: Global, name: &'a str) -> Command<'a>
    ensures { app_of result ≡ bare name.entry.now }
{
    Command::new(alloc, name).disable_help_flag(true)
}

// The command with an option more, which has a value.
fn with_option<'a>(
    alloc: Global,
    command: Command<'a>,
    name: &'a str,
) -> Result<Command<'a>, AllocError>
    ensures { IfOk result (λ c. app_of c ≡ with_rule (app_of command.entry) (option name.entry.now)) }
{
    let option = Arg::new(alloc, name).long(name);
    command.arg(option)
}

// The command with a word more, which has to stand at its place.
fn with_word<'a>(
    alloc: Global,
    command: Command<'a>,
    name: &'a str,
) -> Result<Command<'a>, AllocError>
    ensures { IfOk result (λ c. app_of c ≡ with_rule (app_of command.entry) (positional name.entry.now)) }
{
    let word = Arg::new(alloc, name).required(true);
    command.arg(word)
}

// The options of a catalogue.
fn catalogue_command<'a>(alloc: Global, name: &'a str) -> Result<Command<'a>, AllocError>
    ensures { IfOk result (λ c. app_of c ≡ catalogue_words name.entry.now) }
{
    let command = without_options(alloc, name);
    let command = with_option(alloc, command, "orphans")?;
    let command = with_option(alloc, command, "store")?;
    with_option(alloc, command, "journal")
}

// The address and the options of a server.
fn server_command<'a>(alloc: Global, name: &'a str) -> Result<Command<'a>, AllocError>
    ensures { IfOk result (λ c. app_of c ≡ server_words name.entry.now) }
{
    let command = catalogue_command(alloc, name)?;
    let command = with_option(alloc, command, "workers")?;
    let command = with_option(alloc, command, "connections")?;
    with_word(alloc, command, "address")
}

// The two numbers of a sample.
fn sample_command<'a>(alloc: Global, name: &'a str) -> Result<Command<'a>, AllocError>
    ensures { IfOk result (λ c. app_of c ≡ sample_words name.entry.now) }
{
    let command = without_options(alloc, name);
    let command = with_word(alloc, command, "seed")?;
    with_word(alloc, command, "count")
}

// What clap finds among the words, the first of which is that of the command.
fn found<'a>(command: Command<'a>, words: &'a [String]) -> Result<Given<'a>, WordFault>
    requires { is_simple_and_free (app_of command) ≡ true }
    ensures { Reads (read (app_of command.entry) (map string_bytes words.entry.now)) result }
{
    match command.try_get_matches_from(words) {
        Ok(matches) => Ok(Given { matches }),
        Err(error) => match error.kind() {
            ErrorKind::OutOfMemory => Err(WordFault::NoMemory),
            _ => Err(WordFault::Usage),
        },
    }
}

/// What was given to a session or a connection of this name.
pub(crate) fn catalogue_given<'a>(
    alloc: Global,
    name: &'a str,
    words: &'a [String],
) -> Result<Given<'a>, WordFault>
    ensures { Reads (read (catalogue_words name.entry.now) (map string_bytes words.entry.now)) result }
{
    found(catalogue_command(alloc, name)?, words)
}

/// What was given to a server of this name.
pub(crate) fn server_given<'a>(
    alloc: Global,
    name: &'a str,
    words: &'a [String],
) -> Result<Given<'a>, WordFault>
    ensures { Reads (read (server_words name.entry.now) (map string_bytes words.entry.now)) result }
{
    found(server_command(alloc, name)?, words)
}

/// What was given to a sample of this name.
pub(crate) fn sample_given<'a>(
    alloc: Global,
    name: &'a str,
    words: &'a [String],
) -> Result<Given<'a>, WordFault>
    ensures { Reads (read (sample_words name.entry.now) (map string_bytes words.entry.now)) result }
{
    found(sample_command(alloc, name)?, words)
}

/// What was given to a mirror of this name.
pub(crate) fn mirror_given<'a>(
    alloc: Global,
    name: &'a str,
    words: &'a [String],
) -> Result<Given<'a>, WordFault>
    ensures { Reads (read (mirror_words name.entry.now) (map string_bytes words.entry.now)) result }
{
    found(without_options(alloc, name), words)
}
