//! The page: its files, and the path, the content and the bytes of each.
//!
//! The files stand in the folder `page`, as they are served; `tools/page` writes them here as constants, and compares them. The crate promises that
//! `file_at` finds the file whose path is given, and that a file's path, content and bytes are those of the definitions. It stands on cat_http for what
//! replies say of a content.
#![tactic(auto)]

pub mod file;
mod texts;
