//! Texts of mutations and of the shelf, about a few names, so that they meet.
use crate::draws::Draws;
use itoa::Buffer;
use std::alloc::{AllocError, Global};

const NAMES: [&str; 6] = ["a", "b", "c", "d", "e", "f"];

const KINDS: [&str; 7] = [
    "Component",
    "Component",
    "Group",
    "User",
    "System",
    "Location",
    "Location",
];

/// A name of an entity.
pub fn name(draws: &mut Draws) -> &'static str {
    draws.word(&NAMES)
}

/// A name of a text on the shelf.
pub fn shelf_name(draws: &mut Draws) -> &'static str {
    draws.word(&["file:/a.json", "file:/b.json", "file:/c.json"])
}

/// A reference to an entity, in short.
pub fn reference(alloc: Global, draws: &mut Draws) -> Result<String, AllocError> {
    let kind = draws.word(&KINDS);
    let name = name(draws);
    [kind, ":", name].concat(alloc)
}

// What a Component says in its `spec`.
fn component_said(alloc: Global, owner: &str, other: &str) -> Result<String, AllocError> {
    let begin = "\"type\":\"service\",\"lifecycle\":\"production\",\"owner\":\"";
    [begin, owner, "\",\"dependsOn\":[\"component:", other, "\"]"].concat(alloc)
}

// What a Location says in its `spec`.
fn location_said(alloc: Global, file: &str) -> Result<String, AllocError> {
    ["\"type\":\"file\",\"target\":\"/", file, ".json\""].concat(alloc)
}

// What an entity of a kind says in its `spec`; now and then it says too little.
fn said(alloc: Global, kind: &str, draws: &mut Draws) -> Result<String, AllocError> {
    if draws.below(12) == 0 {
        return Ok(String::new(alloc));
    }
    let other = name(draws);
    let owner = name(draws);
    match kind {
        "Component" => component_said(alloc, owner, other),
        "Group" => ["\"type\":\"team\",\"children\":[\"", other, "\"]"].concat(alloc),
        "User" => ["\"memberOf\":[\"", other, "\"]"].concat(alloc),
        "System" => ["\"owner\":\"", owner, "\",\"domain\":\"", other, "\""].concat(alloc),
        _ => location_said(alloc, draws.word(&["a", "b", "c"])),
    }
}

// The descriptor of an entity.
fn described(alloc: Global, kind: &str, name: &str, said: &str) -> Result<String, AllocError> {
    let begin = "{\"apiVersion\":\"backstage.io/v1alpha1\",\"kind\":\"";
    [
        begin,
        kind,
        "\",\"metadata\":{\"name\":\"",
        name,
        "\"},\"spec\":{",
        said,
        "}}",
    ]
    .concat(alloc)
}

// An entity.
fn entity(alloc: Global, draws: &mut Draws) -> Result<String, AllocError> {
    let kind = draws.word(&KINDS);
    let name = name(draws);
    let said = said(alloc, kind, draws)?;
    described(alloc, kind, name, said.as_str())
}

// An item with this entity, and what ends it.
fn ended(alloc: Global, entity: &str, end: &str) -> Result<String, AllocError> {
    ["{\"entity\":", entity, end].concat(alloc)
}

// An item of a provider: an entity, now and then under a key.
fn item(alloc: Global, draws: &mut Draws) -> Result<String, AllocError> {
    let entity = entity(alloc, draws)?;
    if draws.below(4) == 0 {
        ended(alloc, entity.as_str(), ",\"locationKey\":\"k\"}")
    } else {
        ended(alloc, entity.as_str(), "}")
    }
}

// The pieces with commas between them.
fn push_piece(out: &mut String, place: u64, piece: &str) -> Result<(), AllocError> {
    if 0 < place {
        out.push_str(",")?;
    }
    out.push_str(piece)
}

// Up to five items.
fn items(alloc: Global, draws: &mut Draws) -> Result<String, AllocError> {
    let mut out = String::new(alloc);
    for place in 0..draws.below(6) {
        push_piece(&mut out, place, item(alloc, draws)?.as_str())?;
    }
    Ok(out)
}

// The body of a mutation with this serial.
fn numbered(alloc: Global, serial: u64, texts: &[&str]) -> Result<String, AllocError> {
    let mut buffer = Buffer::new();
    let given = texts.concat(alloc)?;
    [
        "{\"serial\":",
        buffer.format(serial),
        ",",
        given.as_str(),
        "}",
    ]
    .concat(alloc)
}

/// The body of a `full` with this serial.
pub fn full(alloc: Global, serial: u64, draws: &mut Draws) -> Result<String, AllocError> {
    let items = items(alloc, draws)?;
    numbered(alloc, serial, &["\"entities\":[", items.as_str(), "]"])
}

/// The body of a `delta` with this serial.
pub fn delta(alloc: Global, serial: u64, draws: &mut Draws) -> Result<String, AllocError> {
    let items = items(alloc, draws)?;
    let gone = reference(alloc, draws)?;
    numbered(
        alloc,
        serial,
        &[
            "\"added\":[",
            items.as_str(),
            "],\"removed\":[\"",
            gone.as_str(),
            "\"]",
        ],
    )
}

/// A text for the shelf: a list of up to three entities, now and then cut off.
pub fn shelf_text(alloc: Global, draws: &mut Draws) -> Result<String, AllocError> {
    let mut out = String::from_str(alloc, "[")?;
    for place in 0..draws.below(4) {
        push_piece(&mut out, place, entity(alloc, draws)?.as_str())?;
    }
    if 0 < draws.below(8) {
        out.push_str("]")?;
    }
    Ok(out)
}
