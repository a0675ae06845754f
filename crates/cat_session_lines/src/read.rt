//! From the bytes of a line to what it says.
ghost use Rattle.std.specs.Prelude.{◌≡◌, ◌⊎◌, ◌<◌, ◌^◌, option_map, IfOk, IfErr, Ok, Err};
ghost use Rattle.std.specs.Option.{option_copied};
ghost use Rattle.cat_session_lines.specs.Arguments.{two};
ghost use Rattle.cat_session_lines.specs.Lines as spec;
ghost use Rattle.cat_session_lines.specs.Ready.{IsReady};

use crate::argument::{moment, number, parted, two, utf8_in};
use crate::fault::{LineFault, input_fault, query_fault};
use crate::keyword::{Keyword, keyword_named};
use crate::line::Line;
use crate::query::query_of;
use crate::references::references_of;
use cat_collections::listing::Listing;
use cat_inputs::form::Form;
use cat_inputs::input::read_mutation;
use cat_pages::query::Query;
use cat_query::ask::Ask;
use cat_tree::text::Text;
use cat_types::fault::RefFault;
use cat_types::names::{is_name, is_shelf_name};
use cat_types::reference::{Ref, parse};
use std::alloc::Global;

const LONGEST_LINE: usize = 8_388_608;

// The mutation of a provider.
fn mutate(alloc: Global, form: Form, text: &str) -> Result<Line, LineFault>
    ensures ok { IfOk result (λ l. spec.mutate_by form (two text.now) ≡ Ok l) }
    ensures err { IfErr result (λ e. (spec.mutate_by form (two text.now) ≡ Err e)
        ⊎ (e ≡ LineFault.NoMemory)) }
    ensures ready { IfOk result (λ l. IsReady l) }
{
    let (provider, body) = match two(text) {
        Some(parts) => parts,
        None => return Err(LineFault::BadArguments),
    };
    if !is_name(provider) {
        return Err(LineFault::BadArguments);
    }
    match read_mutation(alloc, form, body.as_bytes()) {
        Ok(mutation) => Ok(Line::Mutate(Text::of(alloc, provider)?, mutation)),
        Err(fault) => Err(input_fault(fault)),
    }
}

// The text of a shelf name.
fn put(alloc: Global, text: &str) -> Result<Line, LineFault>
    ensures ok { IfOk result (λ l. spec.put_by (two text.now) ≡ Ok l) }
    ensures err { IfErr result (λ e. (spec.put_by (two text.now) ≡ Err e)
        ⊎ (e ≡ LineFault.NoMemory)) }
    ensures ready { IfOk result (λ l. IsReady l) }
{
    let (name, body) = match two(text) {
        Some(parts) => parts,
        None => return Err(LineFault::BadArguments),
    };
    if !is_shelf_name(name) {
        return Err(LineFault::BadArguments);
    }
    let name = Text::of(alloc, name)?;
    let body = Text::of(alloc, body)?;
    Ok(Line::ShelfPut(name, body))
}

fn take_down(alloc: Global, name: &str) -> Result<Line, LineFault>
    ensures ok { IfOk result (λ l. spec.drop_by name.now ≡ Ok l) }
    ensures err { IfErr result (λ e. (spec.drop_by name.now ≡ Err e) ⊎ (e ≡ LineFault.NoMemory)) }
    ensures ready { IfOk result (λ l. IsReady l) }
{
    if !is_shelf_name(name) {
        return Err(LineFault::BadArguments);
    }
    Ok(Line::ShelfDrop(Text::of(alloc, name)?))
}

// The reference that an argument names.
fn reference(alloc: Global, text: &str) -> Result<Ref, LineFault>
    ensures ok { IfOk result (λ r. spec.reference text.now ≡ Ok r) }
    ensures err { IfErr result (λ e. (spec.reference text.now ≡ Err e) ⊎ (e ≡ LineFault.NoMemory)) }
{
    match parse(alloc, text, None, "default") {
        Ok(reference) => Ok(reference),
        Err(RefFault::NoMemory) => Err(LineFault::NoMemory),
        Err(_) => Err(LineFault::BadArguments),
    }
}

fn number_in(text: &str) -> Result<u64, LineFault>
    ensures { result ≡ spec.number_in text.now }
{
    number(text).ok_or(LineFault::BadArguments)
}

fn moment_in(text: &str) -> Result<u64, LineFault>
    ensures value { result ≡ spec.moment_in text.now }
    ensures below { IfOk result (λ n. n < 2 ^ 53) }
{
    moment(text).ok_or(LineFault::BadArguments)
}

// The query that an argument is.
fn query(alloc: Global, text: &str) -> Result<Query, LineFault>
    ensures ok { IfOk result (λ q. spec.query text.now ≡ Ok q) }
    ensures err { IfErr result (λ e. (spec.query text.now ≡ Err e) ⊎ (e ≡ LineFault.NoMemory)) }
{
    match query_of(alloc, text) {
        Ok(query) => Ok(query),
        Err(fault) => Err(query_fault(fault)),
    }
}

// What a keyword that stands alone says.
fn alone(alloc: Global, keyword: Keyword) -> Result<Line, LineFault>
    ensures ok { IfOk result (λ l. spec.alone keyword ≡ Ok l) }
    ensures err { IfErr result (λ e. (spec.alone keyword ≡ Err e) ⊎ (e ≡ LineFault.NoMemory)) }
    ensures ready { IfOk result (λ l. IsReady l) }
{
    match keyword {
        Keyword::Take => Ok(Line::Take),
        Keyword::Settle => Ok(Line::Settle),
        Keyword::Quiet => Ok(Line::Ask(Ask::Quiet)),
        Keyword::State => Ok(Line::Ask(Ask::State)),
        Keyword::List => Ok(Line::Ask(Ask::List(query(alloc, "")?))),
        Keyword::Page => Ok(Line::Ask(Ask::Page(query(alloc, "")?))),
        Keyword::Conflicts => Ok(Line::Ask(Ask::Conflicts)),
        Keyword::Failed => Ok(Line::Ask(Ask::Failed)),
        Keyword::Orphans => Ok(Line::Ask(Ask::Orphans)),
        _ => Err(LineFault::BadArguments),
    }
}

// What a keyword and the text after its space ask.
fn question(alloc: Global, keyword: Keyword, text: &str) -> Result<Ask, LineFault>
    ensures ok { IfOk result (λ a. spec.question keyword text.now ≡ Ok a) }
    ensures err { IfErr result (λ e. (spec.question keyword text.now ≡ Err e)
        ⊎ (e ≡ LineFault.NoMemory)) }
{
    match keyword {
        Keyword::Get => Ok(Ask::Get(reference(alloc, text)?)),
        Keyword::List => Ok(Ask::List(query(alloc, text)?)),
        Keyword::Page => Ok(Ask::Page(query(alloc, text)?)),
        Keyword::Facets => Ok(Ask::Facets(query(alloc, text)?)),
        Keyword::Many => {
            let references = references_of(alloc, text)?;
            Ok(Ask::Many(references, Listing::new(alloc)))
        }
        _ => Err(LineFault::BadArguments),
    }
}

// What a keyword and the text after its space say.
fn with_text(alloc: Global, keyword: Keyword, text: &str) -> Result<Line, LineFault>
    ensures ok { IfOk result (λ l. spec.with_text keyword text.now ≡ Ok l) }
    ensures err { IfErr result (λ e. (spec.with_text keyword text.now ≡ Err e)
        ⊎ (e ≡ LineFault.NoMemory)) }
    ensures ready { IfOk result (λ l. IsReady l) }
{
    match keyword {
        Keyword::Full => mutate(alloc, Form::Full, text),
        Keyword::Delta => mutate(alloc, Form::Delta, text),
        Keyword::Put => put(alloc, text),
        Keyword::Drop => take_down(alloc, text),
        Keyword::Refresh => Ok(Line::Refresh(reference(alloc, text)?)),
        Keyword::Forget => Ok(Line::Forget(reference(alloc, text)?)),
        Keyword::Clock => Ok(Line::Clock(moment_in(text)?)),
        Keyword::Finish => Ok(Line::Finish(number_in(text)?)),
        Keyword::Stitch => Ok(Line::Stitch(number_in(text)?)),
        Keyword::Place => Ok(Line::Place(number_in(text)?)),
        _ => Ok(Line::Ask(question(alloc, keyword, text)?)),
    }
}

// What a keyword and the bytes after its space, if there is one, say.
fn with_rest(alloc: Global, keyword: Keyword, rest: Option<&[u8]>) -> Result<Line, LineFault>
    ensures ok { IfOk result (λ l. spec.with_rest keyword (option_copied rest.entry) ≡ Ok l) }
    ensures err { IfErr result (λ e. (spec.with_rest keyword (option_copied rest.entry) ≡ Err e)
        ⊎ (e ≡ LineFault.NoMemory)) }
    ensures ready { IfOk result (λ l. IsReady l) }
{
    match rest {
        Some(rest) => match utf8_in(rest) {
            Some(text) => with_text(alloc, keyword, text),
            None => Err(LineFault::BadArguments),
        },
        None => alone(alloc, keyword),
    }
}

/// What a line says, which is given without its LF and the CR before that.
///
/// The keyword is the bytes before the first space. Words are parted by one space, and the last argument is the rest of
/// the line. A provider's name is a Name, a shelf name a Shelf name; references are read without a default kind and with the
/// namespace `default`. Numbers are 1 to 20 decimal digits; `clock` takes one below 2^53, the others one below 2^64. The
/// answer is the first of the faults of `LineFault` that holds, in their order.
#[tactic(auto, unfolding(crate::specs::Lines::line_of))]
pub fn read_line(alloc: Global, line: &[u8]) -> Result<Line, LineFault>
    ensures ok { IfOk result (λ l. spec.line_of line.now ≡ Ok l) }
    ensures err { IfErr result (λ e. (spec.line_of line.now ≡ Err e) ⊎ (e ≡ LineFault.NoMemory)) }
    ensures ready { IfOk result (λ l. IsReady l) }
{
    if line.len() > LONGEST_LINE {
        return Err(LineFault::LongLine);
    }
    let (word, rest) = parted(line);
    match keyword_named(word) {
        Some(keyword) => with_rest(alloc, keyword, rest),
        None => Err(LineFault::BadWord),
    }
}
