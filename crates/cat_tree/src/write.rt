//! From a tree to compact JSON text.
ghost use Rattle.std.specs.Prelude.{◌≡◌, ◌++◌, OnOk, OnErr, ◌≤◌, ◌∷◌, []};
ghost use Rattle.std.specs.Fmt.{signed_decimal};
ghost use Rattle.json.specs.Token.{number};
ghost use Rattle.cat_tree.specs.View.{data_of};
ghost use Rattle.cat_tree.specs.Ask.{depth_of};
ghost use Rattle.cat_tree.specs.Proper.{IsProper, IsNarrow};
ghost use Rattle.cat_tree.specs.Read.{ReadsAs};
ghost use Rattle.cat_tree.specs.Text.{text_of, tokens_of};

use crate::tree::Tree;
use json::Writer;
use std::alloc::{AllocError, Global};
use std::mem;

/// Appends the tree's compact JSON text (RFC 8259): no spaces, keys in byte order. Read again, it gives
/// the same tree where its numbers have 64 bits and it is at most 127 levels deep. Where memory is
/// wanted, `out` is as before.
pub fn write(alloc: Global, tree: &Tree, out: &mut Vec<u8>) -> Result<(), AllocError>
    ensures ok { OnOk result (out.new.items ≡ out.old.items ++ text_of (data_of tree.now)) }
    ensures reads_back { OnOk result (IsNarrow (data_of tree.now)
        → depth_of (data_of tree.now) ≤ 127
        → ReadsAs (text_of (data_of tree.now)) (data_of tree.now)) }
    ensures err { OnErr result (out.new.items ≡ out.old.items) }
{
    let start = out.len();
    let mut writer = Writer::new(mem::replace(out, Vec::new(alloc)));
    let written = write_tree(tree, &mut writer);
    *out = writer.into_inner();
    if written.is_err() {
        out.truncate(start);
    }
    written
}

// Writes a whole number in decimal digits.
fn write_whole(z: i128, writer: &mut Writer) -> Result<(), AllocError>
    ensures ok { OnOk result (writer.new.tokens
        ≡ writer.old.tokens ++ number (signed_decimal z) ∷ []) }
    ensures before { writer.new.before ≡ writer.old.before }
{
    let mut buffer = itoa::Buffer::new();
    writer.number(buffer.format(z))
}

// Writes the tree's tokens.
#[tactic(auto, using(crate::proofs::Weights::falls))]
fn write_tree(tree: &Tree, writer: &mut Writer) -> Result<(), AllocError>
    ensures ok { OnOk result (writer.new.tokens
        ≡ writer.old.tokens ++ tokens_of (data_of tree.now)) }
    ensures proper { OnOk result (IsProper (data_of tree.now)) }
    ensures before { writer.new.before ≡ writer.old.before }
{
    match tree {
        Tree::Null => writer.null(),
        Tree::Flag(b) => writer.boolean(*b),
        Tree::Whole(z) => write_whole(*z, writer),
        Tree::Words(text) => writer.string(text.as_str()),
        Tree::List(trees) => {
            writer.begin_array()?;
            for tree in trees.as_slice() {
                write_tree(tree, writer)?;
            }
            writer.end_array()
        }
        Tree::Map(pairs) => {
            writer.begin_object()?;
            for (key, tree) in pairs.as_slice() {
                writer.key(key.as_str())?;
                write_tree(tree, writer)?;
            }
            writer.end_object()
        }
    }
}
