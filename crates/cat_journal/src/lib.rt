//! A keeper of rows over a journal in a file, which a crash at any moment leaves readable.
//!
//! The file is a header, records, and a gate byte. A record is the byte 1, the length of its body in 8 bytes, greatest first, and the
//! body, which is the text of a batch: compact JSON (RFC 8259), a list of `[TABLE,KEY,VALUE]` and `[TABLE,KEY]`. The gate byte behind
//! the last record isn't 1, and anything may stand behind it. A record is written behind a gate byte 0 and synced before that
//! byte is made 1, so a crash at any moment leaves the records from before, with the new one or without. A file of at most 9
//! bytes is begun anew.
//!
//! The promise: each batch has one text; bytes are scanned in one way, to their rows or to the place where they are damaged; each
//! write says what every crash in it may leave; and a `JournalKeeper` keeps the promise of every keeper, over any disk. Where the
//! disk tells its content, the keeper tells the rows of the records before the gate byte that it found.
//!
//! The crate stands on cat_disk, whose disks tell what a crash may leave, on cat_keeper, cat_collections, cat_types and cat_tree, whose
//! batches, maps, texts and trees it writes and reads, on cat_io, whose counts of faults it uses, and on serde_json, by whose reading
//! it says what a body is.
#![tactic(auto)]

pub mod body;
pub mod call;
mod commit;
pub mod gate;
pub mod history;
pub mod keeper;
pub mod load;
pub mod records;
