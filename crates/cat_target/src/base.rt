//! What the targets of a Location are seen from. Nothing here takes memory.
ghost use Rattle.std.specs.Prelude.{◌≡◌, option_map};
ghost use Rattle.cat_target.specs.Base.{as_base, base_named as the_base};

use cat_types::names::is_location_type;

/// The location that a Location was read from, lent from the text that names it.
#[derive(Clone, Copy, Debug)]
pub struct Base<'a> {
    /// Its type, as `url` or `file`.
    pub kind: &'a str,
    /// Its target: the URL, the path, or what another type has in its place. Not empty.
    pub target: &'a str,
}

/// The base that a text names: the type before the first `:` and the target after it. None where the one is no type of
/// a location or the other is empty.
pub fn base_named(text: &str) -> Option<Base<'_>>
    ensures { option_map as_base result ≡ the_base text.now }
{
    match text.split_once(':') {
        Some((kind, target)) => {
            if is_location_type(kind) && !target.is_empty() {
                Some(Base { kind, target })
            } else {
                None
            }
        }
        None => None,
    }
}
