//! A gauge for the scripts in bench/ and tools/: how fast descriptors are read, written and checked, and what a text in block
//! YAML is read as.
//!
//! Its words are `read`, `write` or `check`, and how often. Standard input is a JSON list of descriptors; after `read-yaml`, and
//! how often, it is a text in block YAML. It prints how many descriptors it went over in all, and how many faults it found.
//! After the word `yaml` or `json` alone it is texts, which NUL parts: for each it prints a line, the documents of a text in
//! block YAML as a JSON list, or the JSON of a text in JSON, or the fault. After `turns` or `lock`, a number of threads and how often
//! each of them counts, it has them count one number beside each other: in turns, or under a lock. It promises nothing.
#![tactic(auto)]

mod turns;

use crate::turns::{count_in_turns, count_under_lock};
use cat_schema::rules::check;
use cat_tree::read::{TreeFault, read};
use cat_tree::tree::{Tree, Trees};
use cat_tree::write::write;
use cat_yaml::read::read_yaml;
use std::alloc::{AllocError, Global};
use std::env;
use std::io::{self, Read, Write};
use std::sync::Wait;
use std::thread::Threads;

fn faults(alloc: Global, list: &Tree) -> Result<u64, AllocError> {
    let mut count = 0u64;
    if let Tree::List(trees) = list {
        for tree in trees.as_slice() {
            count = count.saturating_add(check(alloc, tree)?.len() as u64);
        }
    }
    Ok(count)
}

fn entries(list: &Tree) -> u64 {
    match list {
        Tree::List(trees) => trees.len() as u64,
        _ => 1,
    }
}

// The documents of a text in block YAML as a list.
fn documents(alloc: Global, bytes: &[u8]) -> Result<Tree, TreeFault> {
    Ok(Tree::List(Trees::from_vec(read_yaml(alloc, bytes)?)))
}

// The tree of a text in JSON, or the documents of one in block YAML.
fn tree_of(alloc: Global, word: &str, bytes: &[u8]) -> Result<Tree, TreeFault> {
    if word == "yaml" {
        documents(alloc, bytes)
    } else {
        read(alloc, bytes)
    }
}

// Puts a line with the JSON of a text, or with its fault, behind those so far.
fn push_answer(
    alloc: Global,
    word: &str,
    bytes: &[u8],
    out: &mut Vec<u8>,
) -> Result<(), AllocError> {
    match tree_of(alloc, word, bytes) {
        Ok(tree) => write(alloc, &tree, out)?,
        Err(fault) => out.extend_from_slice(name_of(fault).as_bytes())?,
    }
    out.push(b'\n')?;
    Ok(())
}

// A line for each text.
fn answers(alloc: Global, word: &str, bytes: &[u8]) -> Result<Vec<u8>, AllocError> {
    let mut out = Vec::new(alloc);
    for text in bytes.split(|byte| *byte == 0) {
        push_answer(alloc, word, text, &mut out)?;
    }
    Ok(out)
}

// How many descriptors were read from block YAML.
fn read_from_yaml(alloc: Global, times: u64, bytes: &[u8]) -> Result<(u64, u64), TreeFault> {
    let mut descriptors = 0u64;
    for _ in 0..times {
        descriptors = descriptors.saturating_add(entries(&documents(alloc, bytes)?));
    }
    Ok((descriptors, 0))
}

// How many descriptors were gone over, and how many faults were found.
fn measured(alloc: Global, word: &str, times: u64, bytes: &[u8]) -> Result<(u64, u64), TreeFault> {
    let list = read(alloc, bytes)?;
    let mut out = Vec::new(alloc);
    let mut descriptors = 0u64;
    let mut found = 0u64;
    for _ in 0..times {
        match word {
            "read" => descriptors = descriptors.saturating_add(entries(&read(alloc, bytes)?)),
            "write" => {
                out.clear();
                write(alloc, &list, &mut out)?;
                descriptors = descriptors.saturating_add(entries(&list));
            }
            _ => {
                found = found.saturating_add(faults(alloc, &list)?);
                descriptors = descriptors.saturating_add(entries(&list));
            }
        }
    }
    Ok((descriptors, found))
}

// The name of what keeps a text from being read.
fn name_of(fault: TreeFault) -> &'static str {
    match fault {
        TreeFault::Syntax => "Syntax",
        TreeFault::Fraction => "Fraction",
        TreeFault::NoMemory => "NoMemory",
    }
}

// Has threads count beside each other, and says how many did, or what they counted.
fn counted<R: Threads + Wait + Sync>(
    rt: &R,
    alloc: Global,
    word: &str,
    threads: usize,
    acts: u64,
) -> Result<u64, AllocError> {
    if word == "turns" {
        Ok(count_in_turns(rt, alloc, threads, acts)? as u64)
    } else {
        count_under_lock(rt, alloc, threads, acts)
    }
}

fn main(rt: HostRuntime) -> io::Result<()> {
    let alloc = rt.alloc();
    let mut args = env::args(&rt)?.skip(1);
    let word = args.next().unwrap_or(String::new(alloc));
    let times = match args.next() {
        Some(text) => text.as_str().parse::<u64>().unwrap_or(1),
        None => 1,
    };
    if word.as_str() == "turns" || word.as_str() == "lock" {
        let acts = match args.next() {
            Some(text) => text.as_str().parse::<u64>().unwrap_or(1),
            None => 1,
        };
        return match counted(&rt, alloc, word.as_str(), times.min(16) as usize, acts) {
            Ok(count) => println!(rt; "{count}"),
            Err(_) => println!(rt; "no memory"),
        };
    }
    let mut bytes = Vec::new(alloc);
    rt.stdin().read_to_end(&mut bytes)?;
    if word.as_str() == "yaml" || word.as_str() == "json" {
        return match answers(alloc, word.as_str(), bytes.as_slice()) {
            Ok(text) => rt.stdout().write_all(text.as_slice()),
            Err(_) => println!(rt; "no memory"),
        };
    }
    let gone_over = match word.as_str() {
        "read-yaml" => read_from_yaml(alloc, times, bytes.as_slice()),
        word => measured(alloc, word, times, bytes.as_slice()),
    };
    match gone_over {
        Ok((descriptors, found)) => { println!(rt; "{descriptors} descriptors, {found} faults") }
        Err(_) => println!(rt; "no list of descriptors"),
    }
}
