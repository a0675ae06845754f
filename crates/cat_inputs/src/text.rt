//! From bytes to a tree, by one definition that computes the answer.
ghost use Rattle.std.specs.Prelude.{◌≡◌, ◌⊎◌, IfOk, IfErr, Ok, Err};
ghost use Rattle.cat_tree.specs.Proper.{IsNarrow};
ghost use Rattle.cat_tree.specs.View.{data_of};
ghost use Rattle.cat_inputs.specs.Reading as spec;
ghost use Rattle.cat_inputs.specs.Reading.{tree_reading};
ghost use Rattle.cat_yaml.specs.Reading as yaml;

use cat_tree::read::{TreeFault, read};
use cat_tree::tree::{Tree, Trees};
use cat_yaml::read::read_yaml;
use std::alloc::Global;

/// The tree of a JSON text (RFC 8259) whose numbers are integers of 64 bits.
#[tactic(auto, unfolding(crate::specs::Reading::tree_reading))]
pub fn read_tree(alloc: Global, bytes: &[u8]) -> Result<Tree, TreeFault>
    ensures ok { IfOk result (λ t. tree_reading bytes.now ≡ Ok (data_of t)) }
    ensures narrow { IfOk result (λ t. IsNarrow (data_of t)) }
    ensures err { IfErr result (λ e. (tree_reading bytes.now ≡ Err e) ⊎ (e ≡ TreeFault.NoMemory)) }
{
    read(alloc, bytes)
}

fn is_space(byte: u8) -> bool
    ensures { result ≡ spec.is_space byte }
{
    byte == b' ' || byte == b'\t' || byte == b'\r' || byte == b'\n'
}

fn is_opening(byte: u8) -> bool
    ensures { result ≡ spec.is_opening byte }
{
    byte == b'{' || byte == b'['
}

// Whether the first byte that is no space, tab, CR or LF opens an object or a list.
fn is_json(bytes: &[u8]) -> bool
    ensures { result ≡ spec.is_json bytes.now }
{
    for byte in bytes {
        if !is_space(*byte) {
            return is_opening(*byte);
        }
    }
    false
}

// The documents of a text in block YAML, as one list.
fn read_documents(alloc: Global, bytes: &[u8]) -> Result<Tree, TreeFault>
    ensures ok { IfOk result (λ t. spec.documents_tree (yaml.reading bytes.now) ≡ Ok (data_of t)) }
    ensures err { IfErr result (λ e. (spec.documents_tree (yaml.reading bytes.now) ≡ Err e)
        ⊎ (e ≡ TreeFault.NoMemory)) }
{
    match read_yaml(alloc, bytes) {
        Ok(documents) => Ok(Tree::List(Trees::from_vec(documents))),
        Err(fault) => Err(fault),
    }
}

/// The tree of a text whose numbers are integers of 64 bits. Where the first byte that is no space, tab, CR or LF is `{`
/// or `[`, it is a JSON text (RFC 8259), else one in this project's profile of block YAML, whose documents are given as one
/// list. Takes memory for the tree.
pub fn read_text(alloc: Global, bytes: &[u8]) -> Result<Tree, TreeFault>
    ensures ok { IfOk result (λ t. spec.text_tree bytes.now ≡ Ok (data_of t)) }
    ensures err { IfErr result (λ e. (spec.text_tree bytes.now ≡ Err e) ⊎ (e ≡ TreeFault.NoMemory)) }
{
    if is_json(bytes) {
        read_tree(alloc, bytes)
    } else {
        read_documents(alloc, bytes)
    }
}
