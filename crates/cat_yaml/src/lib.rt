//! Descriptors in block YAML: a profile of YAML 1.2 that decides each text by one short definition.
//!
//! A text is UTF-8 and has one document or more, which lines `---` part. A document is a block node: a
//! list, a map, or a value on one line, at most 127 levels deep. Values are quoted and plain texts, lists
//! in brackets, the empty map, and literal text behind `|`, `|-` or `|+`. What YAML has beside these has no
//! reading: folded text, values over several lines, other flow forms, indent digits, anchors, aliases, tags,
//! directives, `...` and `? ` keys.
//!
//! The promise: `read_yaml` gives the documents exactly where the text has a reading by
//! `specs/Reading.antt` and each number in it is an integer of 64 bits, each refusal exactly where its
//! cause is, and a text has at most one reading. The definition stands in layers: bytes of a line
//! (`Scan`), plain and quoted texts (`Scalar`, `Quoted`), values on one line (`Value`), lines and the
//! parts of a list of lines (`Lines`), literal text (`Literal`), block nodes (`Block`), documents
//! (`Reading`).
//!
//! Each line is read once at each level that it is in, of which there are 127 at most: the time is the
//! length of the text times its depth. It stands on cat_tree, whose trees it gives, and reads double quotes as `serde_json` reads a JSON string.
#![tactic(auto)]

mod block;
mod fault;
mod line;
mod literal;
mod narrow;
mod quoted;
pub mod read;
mod scalar;
mod scan;
mod value;
