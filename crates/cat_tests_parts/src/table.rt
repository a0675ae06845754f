//! What no clause says: that copies are kept while a map changes, and that trees stay low; and some calls at work.
use cat_collections::listing::{Copied, Listing};
use cat_collections::map::Map;
use cat_collections::pair::Pair;
use cat_owned_map::owned::Owned;
use cat_tree::text::Text;
use std::alloc::{AllocError, Global};

fn counted(alloc: Global, count: u64) -> Result<Map<u64, u64>, AllocError> {
    let mut map = Map::new();
    for number in 0..count {
        map.put(alloc, number, number)?;
    }
    Ok(map)
}

// The lower half of the hundred entries goes, and what then is below the middle is put anew.
fn change_half(alloc: Global, map: &mut Map<u64, u64>) -> Result<(), AllocError> {
    for number in 0..50 {
        map.remove(alloc, &number)?;
        map.put(alloc, 99 - number, 0)?;
    }
    Ok(())
}

// Whether the map is as it was made.
fn is_counted(map: &Map<u64, u64>, count: u64) -> bool {
    for number in 0..count {
        if map.get(&number).copied() != Some(number) {
            return false;
        }
    }
    map.len() as u64 == count
}

// How many entries are left of a hundred, and whether a copy that was made before is as it was.
fn halved(alloc: Global) -> Result<(usize, bool), AllocError> {
    let mut map = counted(alloc, 100)?;
    let before = map.duplicate(alloc)?;
    change_half(alloc, &mut map)?;
    Ok((map.len(), is_counted(&before, 100)))
}

#[test]
fn copies_stay(rt: HostRuntime) -> Result<(), AllocError> {
    assert_eq!(rt; halved(rt.alloc())?, (50, true));
    Ok(())
}

#[test]
fn trees_stay_low(rt: HostRuntime) -> Result<(), AllocError> {
    let map = counted(rt.alloc(), 1000)?;
    let is_low = map.len() == 1000 && map.height() <= 15;
    drop(map);
    assert!(rt; is_low);
    Ok(())
}

fn names(alloc: Global) -> Result<Listing<Text>, AllocError> {
    let mut names = Listing::new(alloc);
    for name in ["b", "", "ab", "B"].iter() {
        names.push(Text::of(alloc, name)?)?;
    }
    Ok(names)
}

// The place of each name, under the name and 7.
fn places(alloc: Global) -> Result<Map<(Text, u64), usize>, AllocError> {
    let names = names(alloc)?;
    let mut places = Map::new();
    for (place, name) in names.iter().enumerate() {
        places.put(alloc, (name.duplicate(alloc)?, 7u64), place)?;
    }
    Ok(places)
}

// The names in order, with a semicolon behind each.
fn walked(alloc: Global, places: &Map<(Text, u64), usize>) -> Result<String, AllocError> {
    let mut shown = String::new(alloc);
    for entry in places.iter() {
        shown.push_str(entry.0.0.as_str())?;
        shown.push_str(";")?;
    }
    Ok(shown)
}

// What is found under the name "ab" and a number, and at which place.
fn sought(
    alloc: Global,
    places: &Map<(Text, u64), usize>,
    number: u64,
) -> Result<(Option<usize>, usize), AllocError> {
    let name = Text::of(alloc, "ab")?;
    let pair = Pair {
        first: &name,
        second: &number,
    };
    Ok((places.seek(&pair).copied(), places.seek_place(&pair)))
}

#[test]
fn walks_in_order_and_seeks_by_halves(rt: HostRuntime) -> Result<(), AllocError> {
    let places = places(rt.alloc())?;
    assert!(rt; walked(rt.alloc(), &places)?.as_str() == ";B;ab;b;");
    assert!(rt; sought(rt.alloc(), &places, 7)? == (Some(2), 2));
    assert!(rt; sought(rt.alloc(), &places, 8)? == (None, 3));
    Ok(())
}

// Fifty entries, whose keys fall while they are put.
fn filled(alloc: Global) -> Result<Owned<u64, u64>, AllocError> {
    let mut map = Owned::new();
    for number in 0..50u64 {
        map.put(alloc, 49 - number, number)?;
    }
    Ok(map)
}

// What an entry that is taken had, whether it is gone then, and what the entry had whose place its node takes.
fn moved(map: &mut Owned<u64, u64>) -> Option<(u64, bool, u64)> {
    let node = map.take(&7)?;
    let taken = node.item().1;
    let is_gone = map.get(&7).is_none();
    let (_, slot) = node.open();
    if map.len() >= 100 {
        return None;
    }
    let before = map.put_node(slot.fill((8, 1)))?;
    Some((taken, is_gone, before.item().1))
}

// How many entries there are, and what comes of moving one of them.
fn come_and_gone(alloc: Global) -> Result<(usize, Option<(u64, bool, u64)>), AllocError> {
    let mut map = filled(alloc)?;
    let count = map.len();
    Ok((count, moved(&mut map)))
}

// What a value was that is replaced, beside an entry that goes and comes and one that goes.
fn changed(alloc: Global, map: &mut Owned<u64, u64>) -> Result<Option<u64>, AllocError> {
    map.remove(&7);
    let before = map.replace(&8, 1);
    map.put(alloc, 7, 2)?;
    map.remove(&9);
    Ok(before)
}

// Whether these entries are the first ones from the key 6 on.
fn walks(map: &Owned<u64, u64>, wanted: &[(u64, u64)]) -> bool {
    for (entry, wanted) in map.iter_from(&6).zip(wanted.iter()) {
        if *entry != *wanted {
            return false;
        }
    }
    true
}

// What was replaced, whether the entries then are these from the key 6 on, and at which place the key 10 stands.
fn walked_from(
    alloc: Global,
    wanted: &[(u64, u64)],
) -> Result<(Option<u64>, bool, usize), AllocError> {
    let mut map = filled(alloc)?;
    let before = changed(alloc, &mut map)?;
    Ok((before, walks(&map, wanted), map.place(&10)))
}

#[test]
fn owned_entries_come_and_go(rt: HostRuntime) -> Result<(), AllocError> {
    assert_eq!(rt; come_and_gone(rt.alloc())?, (50, Some((42, true, 41))));
    Ok(())
}

#[test]
fn owned_entries_are_walked_from_a_key(rt: HostRuntime) -> Result<(), AllocError> {
    let wanted = [(6u64, 43u64), (7, 2), (8, 1), (10, 39)];
    assert_eq!(rt;
        walked_from(rt.alloc(), wanted.as_slice())?,
        (Some(41), true, 9)
    );
    Ok(())
}
