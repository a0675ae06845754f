//! Words, and the commands that they are.
use cat_command_line::{CatalogueOptions, Command, Serving, WordFault, command_of};
use cat_keeper::keeper::Place;
use cat_model::types::OrphanRule;
use itoa::Buffer;
use std::alloc::{AllocError, Global};
use std::test::Fail;

// Words, and what the command says that they are.
const CASES: [(&[&str], &[u8]); 62] = [
    (&["session"], b"session"),
    (&["wire"], b"wire"),
    (&["session", "--orphans", "keep"], b"session keep"),
    (&["session", "--orphans", "delete"], b"session delete"),
    (&["session", "--orphans=delete"], b"session delete"),
    (&["wire", "--orphans", "delete"], b"wire delete"),
    (&["session", "--orphans", "drop"], USAGE),
    (&["session", "--orphans"], USAGE),
    (
        &["session", "--orphans", "keep", "--orphans", "keep"],
        USAGE,
    ),
    (&["sample", "--orphans", "keep"], USAGE),
    (&["session", "--store"], USAGE),
    (&["session", "--store", "--orphans"], USAGE),
    (&["session", "--store", "--orphans", "keep"], USAGE),
    (&["session", "--stor", "a.db"], USAGE),
    (&["session", "--help"], USAGE),
    (&["session", "-h"], USAGE),
    (&["session", "--store", "a.db"], b"session store a.db"),
    (&["session", "--store=a.db"], b"session store a.db"),
    (
        &["session", "--store=--orphans"],
        b"session store --orphans",
    ),
    (&["wire", "--store", "a.db"], b"wire store a.db"),
    (
        &["session", "--store", "a.db", "--orphans", "delete"],
        b"session delete store a.db",
    ),
    (
        &["wire", "--orphans", "keep", "--store", "a.db"],
        b"wire keep store a.db",
    ),
    (&["session", "--journal", "a.log"], b"session journal a.log"),
    (
        &["wire", "--journal", "a.log", "--orphans", "delete"],
        b"wire delete journal a.log",
    ),
    (&["session", "--store", "a.db", "--store", "b.db"], USAGE),
    (&["session", "--store", "a.db", "--journal", "a.log"], USAGE),
    (&["session", "--store", "a.db", "--orphans"], USAGE),
    (&["session", "--store", "a.db", "--orphans", "drop"], USAGE),
    (&["mirror", "--store", "a.db"], USAGE),
    (&["sample", "1", "5"], b"sample 1 5"),
    (&["sample", "0", "50000"], b"sample 0 50000"),
    (&["sample", "2147483648", "5"], USAGE),
    (&["sample", "1", "0"], USAGE),
    (&["sample", "1", "50001"], USAGE),
    (&["sample", "+1", "5"], USAGE),
    (&["sample", "-1", "5"], USAGE),
    (&["sample", "1"], USAGE),
    (&["session", "session"], USAGE),
    (&["mirror"], b"mirror"),
    (&["mirror", "x"], USAGE),
    (&["mirror", "--orphans", "keep"], USAGE),
    (&["serve"], USAGE),
    (&["serve", "--workers"], USAGE),
    (&["serve", "--workers", "2"], USAGE),
    (&["serve", "[::]:80"], b"serve [::]:80 2 4"),
    (&["serve", "--workers", "3", "a:1"], b"serve a:1 3 4"),
    (
        &["serve", "a:1", "--workers", "16", "--connections", "1"],
        b"serve a:1 16 1",
    ),
    (
        &[
            "serve",
            "a:1",
            "--connections=08",
            "--orphans",
            "delete",
            "--workers",
            "1",
        ],
        b"serve a:1 1 8 delete",
    ),
    (
        &["serve", "a:1", "--store", "a.db", "--workers", "3"],
        b"serve a:1 3 4 store a.db",
    ),
    (
        &["serve", "a:1", "--orphans", "keep", "--journal", "a.log"],
        b"serve a:1 2 4 keep journal a.log",
    ),
    (&["serve", "a:1", "--store"], USAGE),
    (
        &["serve", "a:1", "--store", "a.db", "--journal", "a.log"],
        USAGE,
    ),
    (&["serve", "a:1", "--workers", "0"], USAGE),
    (&["serve", "a:1", "--workers", "17"], USAGE),
    (&["serve", "a:1", "--connections", "17"], USAGE),
    (&["serve", "a:1", "--workers", "+1"], USAGE),
    (&["serve", "a:1", "--workers", "2", "--workers", "2"], USAGE),
    (&["serve", "a:1", "--orphans", "drop"], USAGE),
    (&["serve", "a:1", "--feeds", "2"], USAGE),
    (&["serve", "a:1", "b:2"], USAGE),
    (&["help"], USAGE),
    (&[], USAGE),
];

const USAGE: &[u8] = b"usage";

// Appends what becomes of orphans, and where the catalogue is kept.
fn push_catalogue(said: &mut Vec<u8>, options: &CatalogueOptions) -> Result<(), AllocError> {
    match options.orphans {
        None => {}
        Some(OrphanRule::Keep) => said.extend_from_slice(b" keep")?,
        Some(OrphanRule::Delete) => said.extend_from_slice(b" delete")?,
    }
    match &options.place {
        None | Some(Place::Nowhere) => Ok(()),
        Some(Place::File(name)) => {
            said.extend_from_slice(b" store ")?;
            said.extend_from_slice(name.as_str().as_bytes())
        }
        Some(Place::Journal(name)) => {
            said.extend_from_slice(b" journal ")?;
            said.extend_from_slice(name.as_str().as_bytes())
        }
    }
}

// Appends a number behind a space.
fn push_number(said: &mut Vec<u8>, number: u64) -> Result<(), AllocError> {
    let mut buffer = Buffer::new();
    said.extend_from_slice(b" ")?;
    said.extend_from_slice(buffer.format(number).as_bytes())
}

// Appends what a server is.
fn push_serving(said: &mut Vec<u8>, serving: &Serving) -> Result<(), AllocError> {
    said.extend_from_slice(b"serve ")?;
    said.extend_from_slice(serving.address.as_str().as_bytes())?;
    push_number(said, serving.server.workers)?;
    push_number(said, serving.server.connections)?;
    push_catalogue(said, &serving.catalogue)
}

// Appends what a command is.
fn push_command(said: &mut Vec<u8>, command: &Command) -> Result<(), AllocError> {
    match command {
        Command::Session(options) => {
            said.extend_from_slice(b"session")?;
            push_catalogue(said, options)
        }
        Command::Wire(options) => {
            said.extend_from_slice(b"wire")?;
            push_catalogue(said, options)
        }
        Command::Serve(serving) => push_serving(said, serving),
        Command::Mirror => said.extend_from_slice(b"mirror"),
        Command::Sample(sample) => {
            said.extend_from_slice(b"sample")?;
            push_number(said, sample.seed)?;
            push_number(said, sample.count)
        }
    }
}

// What the command of the words is, or that they are none.
fn said(alloc: Global, words: &[String]) -> Result<Vec<u8>, AllocError> {
    let mut said = Vec::new(alloc);
    match command_of(alloc, words) {
        Ok(command) => push_command(&mut said, &command)?,
        Err(WordFault::Usage) => said.extend_from_slice(USAGE)?,
        Err(WordFault::NoMemory) => return Err(AllocError),
    }
    Ok(said)
}

/// The words as what a program is given. The error is want of memory.
pub fn given(alloc: Global, words: &[&str]) -> Result<Vec<String>, AllocError> {
    let mut texts = Vec::new(alloc);
    for word in words.iter() {
        texts.push(String::from_str(alloc, word)?)?;
    }
    Ok(texts)
}

#[test]
fn words_are_commands(rt: HostRuntime) -> Result<(), Fail> {
    for (words, wanted) in CASES.iter() {
        let texts = given(rt.alloc(), words)?;
        assert!(rt; said(rt.alloc(), texts.as_slice())?.as_slice() == *wanted);
    }
    Ok(())
}
