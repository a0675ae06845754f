//! The files that a Location points to, as the names under which they stand on the shelf.
//!
//! A Location of the Backstage descriptor format has texts in `spec.target` and `spec.targets`. Each stands for one
//! file, by the type of the Location: a URL, a path, or a name of another type, which is kept as it is. The crate says
//! which file that is: the targets of a Location are exactly those of `targets_of` in `specs/Targets.antt`, or the first
//! fault that it gives.
//!
//! It stands on cat_tree for the tree of the Location, on cat_types for the forms of location types and shelf names, and on
//! `url` for targets of type `url`. What such a target is joined to is defined by `url`'s own words: its contract promises
//! that parsing and joining give exactly `parse_url`, the basic URL parser of the URL Standard over a base or over none,
//! and that `as_str` is exactly `serialize`, the Standard's URL serializer. The definition of a target's name cites these
//! two and adds nothing to them, so it says as much of URLs as that promise. `url` may also answer `Overflow`, near texts
//! of 4 GB. Its contract ties that to no cause, so it is passed on as want of memory.
#![tactic(auto)]

pub mod base;
pub mod location;
pub mod resolve;
pub mod target;
