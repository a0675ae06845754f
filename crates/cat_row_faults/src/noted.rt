//! Entries by key where a key may stand several times, and which keys do.
ghost use Rattle.std.specs.Prelude.{◌≡◌, IfOk};
ghost use Rattle.cat_row_faults.specs.Told.{is_first, is_once};
ghost use Rattle.cat_collections.specs.Table.{find};

use cat_collections::key::Key;
use cat_collections::listing::Copied;
use cat_collections::map::Map;
use std::alloc::{AllocError, Global};

/// The first entry of each key.
pub fn firsts<K: Key + Drop, X: Drop>(
    alloc: Global,
    entries: Vec<(K, X)>,
) -> Result<Map<K, X>, AllocError>
    ensures { IfOk result (λ m. (k : K) → find K.order k m ≡ find K.order k entries.items) }
{
    let mut made = Map::new();
    for (key, value) in entries {
        if made.get(&key).is_none() {
            made.put(alloc, key, value)?;
        }
    }
    Ok(made)
}

/// Whether each key stood there before, by the key: where it is noted and didn't, it stands once.
pub fn noted<K: Key + Copied + Drop>(alloc: Global, keys: &[K]) -> Result<Map<K, bool>, AllocError>
    ensures { IfOk result (λ m. (k : K) → is_first (find K.order k m) ≡ is_once K.order keys.now k) }
{
    let mut made = Map::new();
    for key in keys {
        let again = made.get(key).is_some();
        made.put(alloc, key.duplicate(alloc)?, again)?;
    }
    Ok(made)
}
