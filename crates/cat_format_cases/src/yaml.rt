//! Texts in block YAML.
use crate::fault::Fault;
use cat_case::case::Case;
use cat_case::shown::push_json;
use cat_tree::tree::{Tree, Trees};
use cat_yaml::read::read_yaml;
use std::alloc::Global;

/// Puts the documents of a text as a list in JSON behind what stands so far.
pub fn documents(out: &mut String, alloc: Global, case: &Case) -> Result<(), Fault> {
    let documents = read_yaml(alloc, case.bytes(1))?;
    let tree = Tree::List(Trees::from_vec(documents));
    push_json(out, alloc, &tree).map_err(Fault::Show)
}
