//! Runs of asks of a feed, and of changes that a mirror follows.
use crate::fault::Fault;
use cat_case::case::Case;
use cat_case::shown::{push_counted, push_gap, push_texts, push_word};
use cat_collections::listing::Listing;
use cat_collections::map::Map;
use cat_feed::change::{Change, Changes, Since};
use cat_feed::fault::FeedFault;
use cat_feed::feed::Feed;
use cat_feed::mirror::Mirror;
use cat_tree::tree::Tree;
use cat_types::node::Node;
use cat_types::reference::{Ref, parse};
use std::alloc::{AllocError, Global};

type Documents = Map<Ref, Node>;

// The place in a feed that a text tells, as `7.2`.
fn place(text: &str) -> Option<Since> {
    let (epoch, number) = text.split_once('.')?;
    Some(Since {
        epoch: epoch.parse::<u64>().ok()?,
        number: number.parse::<u64>().ok()?,
    })
}

// The reference of a group.
fn group(alloc: Global, name: &str) -> Result<Ref, Fault> {
    Ok(parse(alloc, name, Some("group"), "default")?)
}

// Puts a document that is a number.
fn put_document(
    alloc: Global,
    documents: &mut Documents,
    name: &str,
    value: &str,
) -> Result<(), Fault> {
    let reference = group(alloc, name)?;
    let value = i128::from(value.parse::<u64>().unwrap_or(0));
    let document = Node::new(alloc, Tree::Whole(value))?;
    documents
        .put(alloc, reference, document)
        .map_err(Fault::Memory)
}

// Puts the document of a word, as `a=1`.
fn put_word(alloc: Global, documents: &mut Documents, word: &str) -> Result<(), Fault> {
    match word.split_once('=') {
        Some((name, value)) => put_document(alloc, documents, name, value),
        None => Ok(()),
    }
}

// Puts documents that are numbers, told as `a=1 b=2`.
fn put_words(alloc: Global, documents: &mut Documents, text: &str) -> Result<(), Fault> {
    for word in text.split(' ') {
        put_word(alloc, documents, word)?;
    }
    Ok(())
}

// Puts a place in a feed behind a word and what stands so far.
fn push_place(out: &mut String, word: &str, at: &Since) -> Result<(), AllocError> {
    push_counted(out, word, at.epoch)?;
    push_counted(out, ".", at.number)
}

// Puts a change with its number behind what stands so far.
fn push_change(out: &mut String, change: &Change) -> Result<(), AllocError> {
    let sign = if change.set.is_some() { "+" } else { "-" };
    push_counted(out, " ", change.number)?;
    push_texts(out, &[sign, change.reference.parts().name])
}

// Puts where a feed is, and what changed, each with its number, behind what stands so far.
fn push_changes(out: &mut String, changes: &Changes) -> Result<(), AllocError> {
    push_place(out, "to ", &changes.to)?;
    for change in changes.list.iter() {
        push_change(out, change)?;
    }
    Ok(())
}

// Puts why a feed has no answer behind what stands so far.
fn push_fault(out: &mut String, fault: &FeedFault) -> Result<(), AllocError> {
    match fault {
        FeedFault::Gone(at) => push_place(out, "gone ", at),
        FeedFault::Ahead(at) => push_place(out, "ahead ", at),
        FeedFault::Spent => out.push_str("spent"),
        FeedFault::NoMemory => Err(AllocError),
    }
}

// Puts what was answered, in short, behind what stands so far.
fn push_answer(out: &mut String, answer: &Result<Changes, FeedFault>) -> Result<(), AllocError> {
    match answer {
        Ok(changes) => push_changes(out, changes),
        Err(fault) => push_fault(out, fault),
    }
}

// Puts what a feed answers, where it is asked from a place, behind what stands so far.
fn push_asked(
    out: &mut String,
    alloc: Global,
    feed: &mut Feed,
    documents: &Documents,
    since: &str,
) -> Result<(), AllocError> {
    let answer = feed.ask(alloc, documents, place(since));
    push_answer(out, &answer)
}

// Puts the answer to an ask, as `7.2: a=1 b=2`, behind what stands so far.
fn push_ask(out: &mut String, alloc: Global, feed: &mut Feed, text: &str) -> Result<(), Fault> {
    let (since, entries) = text.split_once(':').unwrap_or(("", ""));
    let mut documents = Map::new();
    put_words(alloc, &mut documents, entries)?;
    push_asked(out, alloc, feed, &documents, since).map_err(Fault::Memory)
}

// Puts the answers to asks, one after the other, behind what stands so far.
fn push_asks(out: &mut String, alloc: Global, feed: &mut Feed, case: &Case) -> Result<(), Fault> {
    for step in 0..case.count() {
        push_gap(out)?;
        push_ask(out, alloc, feed, case.step(step))?;
        out.push_str(" |")?;
    }
    Ok(())
}

/// Puts what a feed of the epoch 7 answers, one after the other, to asks from a place, as `7.2: a=1 b=2`, behind what stands so far.
pub fn asked(out: &mut String, alloc: Global, case: &Case) -> Result<(), Fault> {
    let mut feed = Feed::new(alloc, 7);
    push_asks(out, alloc, &mut feed, case)
}

// Puts behind changes that a document is put.
fn push_put(alloc: Global, list: &mut Vec<Change>, name: &str) -> Result<(), Fault> {
    let reference = group(alloc, name)?;
    let set = Some(Node::new(alloc, Tree::Null)?);
    list.push(Change {
        number: 1,
        reference,
        set,
    })?;
    Ok(())
}

// Puts behind changes that a document goes.
fn push_gone(alloc: Global, list: &mut Vec<Change>, name: &str) -> Result<(), Fault> {
    let reference = group(alloc, name)?;
    list.push(Change {
        number: 1,
        reference,
        set: None,
    })?;
    Ok(())
}

// Puts the change of a word, as `a+`, behind those so far.
fn push_entry(alloc: Global, list: &mut Vec<Change>, word: &str) -> Result<(), Fault> {
    if let Some(name) = word.strip_suffix('+') {
        return push_put(alloc, list, name);
    }
    match word.strip_suffix('-') {
        Some(name) => push_gone(alloc, list, name),
        None => Ok(()),
    }
}

fn push_entries(alloc: Global, list: &mut Vec<Change>, entries: &str) -> Result<(), Fault> {
    for word in entries.split(' ') {
        push_entry(alloc, list, word)?;
    }
    Ok(())
}

// Changes to a place, where the text of it tells one.
fn changes_between(from: &str, to: &str, list: Vec<Change>) -> Result<Changes, Fault> {
    match place(to) {
        Some(to) => Ok(Changes {
            from: place(from),
            to,
            list: Listing::from_vec(list),
        }),
        None => Err(Fault::Question),
    }
}

// Changes from a place to another one, told as `3.2>3.5: a- c+`.
fn changes(alloc: Global, text: &str) -> Result<Changes, Fault> {
    let (ends, entries) = text.split_once(':').unwrap_or((text, ""));
    let (from, to) = ends.split_once('>').unwrap_or(("", ends));
    let mut list = Vec::new(alloc);
    push_entries(alloc, &mut list, entries)?;
    changes_between(from, to, list)
}

// Puts the names of documents, a space before each, behind what stands so far.
fn push_names(out: &mut String, documents: &Documents) -> Result<(), AllocError> {
    for entry in documents.iter() {
        push_word(out, entry.0.parts().name)?;
    }
    Ok(())
}

// Puts what comes of changes in a mirror, and the names that it has then, behind what stands so far.
fn push_applied(
    out: &mut String,
    alloc: Global,
    mirror: &mut Mirror,
    changes: &Changes,
) -> Result<(), AllocError> {
    let came = mirror.apply(alloc, changes);
    write!(out, "{came:?}")?;
    push_names(out, mirror.documents())
}

// Puts what comes of the changes of a text behind what stands so far.
fn push_step(
    out: &mut String,
    alloc: Global,
    mirror: &mut Mirror,
    text: &str,
) -> Result<(), Fault> {
    let changes = changes(alloc, text)?;
    push_applied(out, alloc, mirror, &changes).map_err(Fault::Memory)
}

fn push_steps(
    out: &mut String,
    alloc: Global,
    mirror: &mut Mirror,
    case: &Case,
) -> Result<(), Fault> {
    for step in 0..case.count() {
        push_gap(out)?;
        push_step(out, alloc, mirror, case.step(step))?;
        out.push_str(" |")?;
    }
    Ok(())
}

/// Puts what comes of changes in a mirror, one after the other, and the names that it has then, behind what stands so far.
pub fn mirrored(out: &mut String, alloc: Global, case: &Case) -> Result<(), Fault> {
    let mut mirror = Mirror::empty();
    push_steps(out, alloc, &mut mirror, case)
}
