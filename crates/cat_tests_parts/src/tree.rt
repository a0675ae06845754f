//! Trees that no text has, and what holds their parts.
use cat_tree::text::Text;
use cat_tree::tree::{Pairs, Tree, Trees};
use cat_tree::write::write;
use std::alloc::{AllocError, Global};

// A map that had two keys and has one left.
fn left_map(alloc: Global) -> Result<Pairs, AllocError> {
    let mut pairs = Pairs::new(alloc);
    for key in ["b", "a"].iter() {
        pairs.insert(Text::of(alloc, key)?, Tree::Flag(true))?;
    }
    pairs.remove("b");
    Ok(pairs)
}

// Whether a map has just one key, which isn't "b".
fn is_left(pairs: &Pairs) -> bool {
    pairs.len() == 1 && pairs.get("b").is_none()
}

// A list of the least and the greatest number, and of this map.
fn listed(alloc: Global, pairs: Pairs) -> Result<Tree, AllocError> {
    let items = Vec::from_array(
        alloc,
        [
            Tree::Whole(i128::MIN),
            Tree::Whole(i128::MAX),
            Tree::Map(Pairs::from_vec(pairs.into_vec())),
        ],
    )?;
    Ok(Tree::List(Trees::from_vec(items)))
}

// Whether that map has one key left, and whether the list with it is written so.
fn writes(alloc: Global, wanted: &[u8]) -> Result<(bool, bool), AllocError> {
    let pairs = left_map(alloc)?;
    let is_left = is_left(&pairs);
    let tree = listed(alloc, pairs)?;
    let mut text = Vec::new(alloc);
    write(alloc, &tree, &mut text)?;
    Ok((is_left, text.as_slice() == wanted))
}

#[test]
fn writes_128_bits(rt: HostRuntime) -> Result<(), AllocError> {
    let wanted =
        b"[-170141183460469231731687303715884105728,170141183460469231731687303715884105727,{\"a\":true}]";
    assert_eq!(rt; writes(rt.alloc(), wanted)?, (true, true));
    Ok(())
}
