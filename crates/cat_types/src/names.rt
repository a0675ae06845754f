//! The forms of names, after the Backstage documentation's Descriptor Format. Letters and digits are
//! ASCII. Nothing here takes memory.
ghost use Rattle.std.specs.Prelude.{◌≡◌, ◌==◌};
ghost use Rattle.std.specs.List.{list_all, slice_split};
ghost use Rattle.std.specs.Char.{is_ascii_alphabetic, is_ascii_alphanumeric};
ghost use Rattle.cat_types.specs.Names.{is_short, begins, has_plain_ends, is_dash_or_plain, is_type_byte, is_name_byte, is_tag_byte, is_tag_piece, is_shown_byte};
ghost use Rattle.cat_types.specs.Names as names;

// From 1 to 63 bytes.
fn is_short(bytes: &[u8]) -> bool
    ensures { result ≡ is_short bytes.now }
{
    1 <= bytes.len() && bytes.len() <= 63
}

fn begins_with_letter(bytes: &[u8]) -> bool
    ensures { result ≡ begins is_ascii_alphabetic bytes.now }
{
    match bytes.first() {
        Some(first) => first.is_ascii_alphabetic(),
        None => false,
    }
}

// The first and the last byte are a letter or a digit.
fn has_plain_ends(bytes: &[u8]) -> bool
    ensures { result ≡ has_plain_ends bytes.now }
{
    match (bytes.first(), bytes.last()) {
        (Some(first), Some(last)) => {
            first.is_ascii_alphanumeric() && last.is_ascii_alphanumeric()
        }
        _ => false,
    }
}

fn is_dash_or_plain(byte: u8) -> bool
    ensures { result ≡ is_dash_or_plain byte }
{
    byte == b'-' || byte.is_ascii_alphanumeric()
}

fn is_type_byte(byte: u8) -> bool
    ensures { result ≡ is_type_byte byte }
{
    byte == b'_' || is_dash_or_plain(byte)
}

fn is_name_byte(byte: u8) -> bool
    ensures { result ≡ is_name_byte byte }
{
    byte == b'.' || is_type_byte(byte)
}

fn is_tag_byte(byte: u8) -> bool
    ensures { result ≡ is_tag_byte byte }
{
    matches!(byte, b':' | b'+' | b'#') || byte.is_ascii_lowercase() || byte.is_ascii_digit()
}

fn is_shown_byte(byte: u8) -> bool
    ensures { result ≡ is_shown_byte byte }
{
    33 <= byte && byte != 127
}

fn are_plain(bytes: &[u8]) -> bool
    ensures { result ≡ list_all is_ascii_alphanumeric bytes.now }
{
    bytes.iter().all(|byte| byte.is_ascii_alphanumeric())
}

fn are_dashes_or_plain(bytes: &[u8]) -> bool
    ensures { result ≡ list_all is_dash_or_plain bytes.now }
{
    bytes.iter().all(|byte| is_dash_or_plain(*byte))
}

fn are_type_bytes(bytes: &[u8]) -> bool
    ensures { result ≡ list_all is_type_byte bytes.now }
{
    bytes.iter().all(|byte| is_type_byte(*byte))
}

fn are_name_bytes(bytes: &[u8]) -> bool
    ensures { result ≡ list_all is_name_byte bytes.now }
{
    bytes.iter().all(|byte| is_name_byte(*byte))
}

fn are_tag_bytes(bytes: &[u8]) -> bool
    ensures { result ≡ list_all is_tag_byte bytes.now }
{
    bytes.iter().all(|byte| is_tag_byte(*byte))
}

fn are_shown_bytes(bytes: &[u8]) -> bool
    ensures { result ≡ list_all is_shown_byte bytes.now }
{
    bytes.iter().all(|byte| is_shown_byte(*byte))
}

/// Whether the text is a kind: 1 to 63 letters and digits, the first a letter.
#[tactic(auto, unfolding(crate::specs::Names::is_kind))]
pub fn is_kind(text: &str) -> bool
    ensures { result ≡ names.is_kind text.now }
{
    let bytes = text.as_bytes();
    is_short(bytes) && begins_with_letter(bytes) && are_plain(bytes)
}

/// Whether the text is a name, of an entity, a label or a provider: 1 to 63 letters, digits, `-`, `_`,
/// `.`, the first and the last a letter or digit.
#[tactic(auto, unfolding(crate::specs::Names::is_name))]
pub fn is_name(text: &str) -> bool
    ensures { result ≡ names.is_name text.now }
{
    let bytes = text.as_bytes();
    is_short(bytes) && has_plain_ends(bytes) && are_name_bytes(bytes)
}

/// Whether the text is a namespace: 1 to 63 letters, digits, `-`, the first and the last a letter or
/// digit.
#[tactic(auto, unfolding(crate::specs::Names::is_namespace))]
pub fn is_namespace(text: &str) -> bool
    ensures { result ≡ names.is_namespace text.now }
{
    let bytes = text.as_bytes();
    is_short(bytes) && has_plain_ends(bytes) && are_dashes_or_plain(bytes)
}

// Whether the pieces between `.` have the form of a namespace.
fn are_labels(text: &str) -> bool
    ensures { result ≡ list_all names.is_namespace (slice_split (λ b. b == 46) text.now) }
{
    text.split('.').all(|piece| is_namespace(piece))
}

/// Whether the text is a subdomain, as it stands before `/` in a key: at most 253 bytes, pieces joined
/// by `.`, each of the form of a namespace.
#[tactic(auto, unfolding(crate::specs::Names::is_subdomain))]
pub fn is_subdomain(text: &str) -> bool
    ensures { result ≡ names.is_subdomain text.now }
{
    text.len() <= 253 && are_labels(text)
}

/// Whether the text is a key of a label or an annotation: a name, or a subdomain, `/` and a name.
#[tactic(auto, unfolding(crate::specs::Names::is_key))]
pub fn is_key(text: &str) -> bool
    ensures { result ≡ names.is_key text.now }
{
    if is_name(text) {
        return true;
    }
    match text.split_once('/') {
        Some((domain, name)) => is_subdomain(domain) && is_name(name),
        None => false,
    }
}

fn is_tag_piece(piece: &str) -> bool
    ensures { result ≡ is_tag_piece piece.now }
{
    !piece.is_empty() && are_tag_bytes(piece.as_bytes())
}

// Whether the pieces between `-` are those of a tag.
fn are_tag_pieces(text: &str) -> bool
    ensures { result ≡ list_all is_tag_piece (slice_split (λ b. b == 45) text.now) }
{
    text.split('-').all(|piece| is_tag_piece(piece))
}

/// Whether the text is a tag: 1 to 63 bytes, pieces of one or more of `a` to `z`, `0` to `9`, `:`, `+`
/// and `#`, joined by single `-`.
#[tactic(auto, unfolding(crate::specs::Names::is_tag))]
pub fn is_tag(text: &str) -> bool
    ensures { result ≡ names.is_tag text.now }
{
    is_short(text.as_bytes()) && are_tag_pieces(text)
}

/// Whether the text is a type of a location: 1 to 63 letters, digits, `-`, `_`.
#[tactic(auto, unfolding(crate::specs::Names::is_location_type))]
pub fn is_location_type(text: &str) -> bool
    ensures { result ≡ names.is_location_type text.now }
{
    let bytes = text.as_bytes();
    is_short(bytes) && are_type_bytes(bytes)
}

/// Whether the text can stand on the shelf as the name of a location: 3 to 2,048 bytes, none an ASCII
/// control byte or a space, a location type, `:` and at least one byte.
#[tactic(auto, unfolding(crate::specs::Names::is_shelf_name))]
pub fn is_shelf_name(text: &str) -> bool
    ensures { result ≡ names.is_shelf_name text.now }
{
    if text.len() < 3 || 2048 < text.len() {
        return false;
    }
    if !are_shown_bytes(text.as_bytes()) {
        return false;
    }
    match text.split_once(':') {
        Some((kind, rest)) => is_location_type(kind) && !rest.is_empty(),
        None => false,
    }
}
