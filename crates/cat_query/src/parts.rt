//! The parts of a query, read from the values of its parameters.
ghost use Rattle.std.specs.Prelude.{◌≡◌, ◌++◌, ◌⊎◌, ◌^◌, ◌<◌, ◌≤◌, Ok, Err, IfOk, IfErr, OnOk, map, min, true, false};
ghost use Rattle.cat_search.specs.declared.condition.FilterFault.{FilterFault};
ghost use Rattle.std.specs.List.{list_all};
ghost use Rattle.std.specs.Char.{is_ascii_digit};
ghost use Rattle.cat_search.specs.Filter.{filter_of, pieces};
ghost use Rattle.cat_query.specs.Query.{directed, fault_in, fields_of, filters_from, is_limit, limit_among, number_of, order_among, order_of};

use crate::fault::QueryFault;
use cat_collections::listing::Listing;
use cat_pages::query::OrderBy;
use cat_search::condition::{Filter, FilterFault};
use cat_search::pieces::next_piece;
use cat_search::read::read_filter;
use cat_tree::text::Text;
use std::alloc::{AllocError, Global};

// Reads a filter, and says where it stands where it is at fault.
fn filter_at(alloc: Global, place: usize, text: &str) -> Result<Filter, QueryFault>
    ensures ok { IfOk result (λ f. filter_of text.now ≡ Ok f) }
    ensures err { IfErr result (λ e. (e ≡ QueryFault.NoMemory)
        ⊎ ((f : FilterFault) × (filter_of text.now ≡ Err f) × (e ≡ fault_in place f))) }
{
    match read_filter(alloc, text) {
        Ok(filter) => Ok(filter),
        Err(FilterFault::EmptyKey(condition)) => Err(QueryFault::Filter(place, condition)),
        Err(FilterFault::NoMemory) => Err(QueryFault::NoMemory),
    }
}

/// Reads filters. Refused by the first condition that has no key.
pub fn filters(alloc: Global, texts: &[&str]) -> Result<Listing<Filter>, QueryFault>
    ensures ok { IfOk result (λ fs. filters_from 0 (map (λ t. t.now) texts.now) ≡ Ok fs) }
    ensures err { IfErr result (λ e. (e ≡ QueryFault.NoMemory)
        ⊎ (filters_from 0 (map (λ t. t.now) texts.now) ≡ Err e)) }
{
    let mut filters = Vec::new(alloc);
    for (place, text) in texts.iter().enumerate() {
        filters.push(filter_at(alloc, place, text)?)?;
    }
    Ok(Listing::from_vec(filters))
}

// The keys of a path.
fn path(alloc: Global, text: &str) -> Result<Listing<Text>, AllocError>
    ensures { IfOk result (λ p. p ≡ pieces 46 text.now) }
{
    let mut keys = Vec::new(alloc);
    let mut rest = text;
    loop {
        let (key, more) = next_piece(rest, '.');
        keys.push(Text::of(alloc, key)?)?;
        match more {
            Some(after) => rest = after,
            None => return Ok(Listing::from_vec(keys)),
        }
    }
}

// Adds the paths of a text.
fn add_paths(alloc: Global, text: &str, paths: &mut Vec<Listing<Text>>) -> Result<(), AllocError>
    ensures { OnOk result (paths.new.items ≡ paths.old.items ++ map (pieces 46) (pieces 44 text.now)) }
{
    let mut rest = text;
    loop {
        let (piece, more) = next_piece(rest, ',');
        paths.push(path(alloc, piece)?)?;
        match more {
            Some(after) => rest = after,
            None => return Ok(()),
        }
    }
}

/// Reads paths parted by commas, their keys parted by points.
pub fn fields(alloc: Global, texts: &[&str]) -> Result<Listing<Listing<Text>>, AllocError>
    ensures { IfOk result (λ fs. fs ≡ fields_of (map (λ t. t.now) texts.now)) }
{
    let mut paths = Vec::new(alloc);
    for text in texts {
        add_paths(alloc, text, &mut paths)?;
    }
    Ok(Listing::from_vec(paths))
}

/// Copies of the texts.
pub fn copies(alloc: Global, texts: &[&str]) -> Result<Listing<Text>, AllocError>
    ensures { IfOk result (λ ts. ts ≡ map (λ t. t.now) texts.now) }
{
    let mut copies = Vec::new(alloc);
    for text in texts {
        copies.push(Text::of(alloc, text)?)?;
    }
    Ok(Listing::from_vec(copies))
}

fn directed(alloc: Global, key: &str, direction: &str) -> Result<Option<OrderBy>, QueryFault>
    ensures ok { IfOk result (λ o. directed key.now direction.now ≡ Ok o) }
    ensures err { IfErr result (λ e. (e ≡ QueryFault.NoMemory) ⊎ (directed key.now direction.now ≡ Err e)) }
{
    if direction == "asc" {
        let key = Text::of(alloc, key)?;
        return Ok(Some(OrderBy {
            key,
            falling: false,
        }));
    }
    if direction == "desc" {
        let key = Text::of(alloc, key)?;
        return Ok(Some(OrderBy { key, falling: true }));
    }
    Err(QueryFault::BadOrder)
}

fn order_of(alloc: Global, text: &str) -> Result<Option<OrderBy>, QueryFault>
    ensures ok { IfOk result (λ o. order_of text.now ≡ Ok o) }
    ensures err { IfErr result (λ e. (e ≡ QueryFault.NoMemory) ⊎ (order_of text.now ≡ Err e)) }
{
    match text.split_once(',') {
        Some((key, direction)) => directed(alloc, key, direction),
        None => {
            let key = Text::of(alloc, text)?;
            Ok(Some(OrderBy {
                key,
                falling: false,
            }))
        }
    }
}

/// Reads at most one order: a key, or a key, a comma and `asc` or `desc`.
pub fn order(alloc: Global, texts: &[&str]) -> Result<Option<OrderBy>, QueryFault>
    ensures ok { IfOk result (λ o. order_among (map (λ t. t.now) texts.now) ≡ Ok o) }
    ensures err { IfErr result (λ e. (e ≡ QueryFault.NoMemory) ⊎ (order_among (map (λ t. t.now) texts.now) ≡ Err e)) }
{
    match texts {
        [] => Ok(None),
        [text] => order_of(alloc, text),
        _ => Err(QueryFault::BadOrder),
    }
}

fn are_digits(bytes: &[u8]) -> bool
    ensures { result ≡ list_all is_ascii_digit bytes.now }
{
    bytes.iter().all(|byte| byte.is_ascii_digit())
}

// The number of the digits, and 1,001 where it is more.
fn number(digits: &[u8]) -> u64
    requires { list_all is_ascii_digit digits.now ≡ true }
    ensures { result ≡ min (number_of digits.now) 1001 }
{
    let mut number: u64 = 0;
    for digit in digits {
        number = (number * 10 + u64::from(digit.saturating_sub(b'0'))).min(1001);
    }
    number
}

/// Reads at most one limit, from 1 to 1,000 in decimal digits; without one it is 20.
pub fn limit(texts: &[&str]) -> Result<u64, QueryFault>
    ensures ok { IfOk result (λ n. limit_among (map (λ t. t.now) texts.now) ≡ Ok n) }
    ensures range { IfOk result (λ n. (1 ≤ n) × (n ≤ 1000)) }
    ensures err { IfErr result (λ e. limit_among (map (λ t. t.now) texts.now) ≡ Err e) }
{
    match texts {
        [] => Ok(20),
        [text] => limit_of(text.as_bytes()),
        _ => Err(QueryFault::BadLimit),
    }
}

fn limit_of(bytes: &[u8]) -> Result<u64, QueryFault>
    ensures ok { IfOk result (λ n. (is_limit bytes.now ≡ true) × (n ≡ number_of bytes.now)) }
    ensures range { IfOk result (λ n. (1 ≤ n) × (n ≤ 1000)) }
    ensures err { IfErr result (λ e. (is_limit bytes.now ≡ false) × (e ≡ QueryFault.BadLimit)) }
{
    if !are_digits(bytes) {
        return Err(QueryFault::BadLimit);
    }
    let number = number(bytes);
    if 1 <= number && number <= 1000 {
        Ok(number)
    } else {
        Err(QueryFault::BadLimit)
    }
}
