//! The bytes of one line: spaces, comments, and the colon after a key. Nothing here takes memory.
ghost use Rattle.std.specs.Prelude.{◌≡◌, ◌<◌, ◌≤◌, IfSome, length};
ghost use Rattle.cat_yaml.specs.Scan as spec;

/// Whether the bytes begin with this one.
pub fn begins_with(byte: u8, bytes: &[u8]) -> bool
    ensures { result ≡ spec.begins_with byte bytes.now }
{
    match bytes.first() {
        Some(first) => *first == byte,
        None => false,
    }
}

/// Whether a space or the end of the line stands here.
pub fn ends_word(bytes: &[u8]) -> bool
    ensures { result ≡ spec.ends_word bytes.now }
{
    match bytes.first() {
        Some(first) => *first == b' ',
        None => true,
    }
}

/// The bytes without the spaces in front.
pub fn stripped(bytes: &[u8]) -> &[u8]
    ensures value { result.now ≡ spec.stripped bytes.now }
    ensures shorter { length result.now ≤ length bytes.now }
{
    for (i, byte) in bytes.iter().enumerate() {
        if *byte != b' ' {
            return &bytes[i..];
        }
    }
    &[]
}

/// The bytes without those at the end that are this one.
pub fn trimmed(byte: u8, bytes: &[u8]) -> &[u8]
    ensures { result.now ≡ spec.trimmed byte bytes.now }
{
    let mut end = bytes.len();
    while 0 < end && bytes[end - 1] == byte {
        end -= 1;
    }
    &bytes[..end]
}

/// Whether a comment begins here: a space and `#`.
pub fn begins_comment(bytes: &[u8]) -> bool
    ensures { result ≡ spec.begins_comment bytes.now }
{
    match bytes.split_first() {
        Some((first, rest)) => *first == b' ' && begins_with(b'#', rest),
        None => false,
    }
}

/// Where the first comment begins, or the end.
pub fn comment_at(bytes: &[u8]) -> usize
    ensures value { result ≡ spec.comment_from 0 bytes.now }
    ensures within { result ≤ length bytes.now }
{
    for i in 0..bytes.len() {
        let (_, rest) = bytes.split_at(i);
        if begins_comment(rest) {
            return i;
        }
    }
    bytes.len()
}

/// The bytes without a comment and the spaces before it.
pub fn uncommented(bytes: &[u8]) -> &[u8]
    ensures { result.now ≡ spec.uncommented bytes.now }
{
    let (text, _) = bytes.split_at(comment_at(bytes));
    trimmed(b' ', text)
}

/// Whether nothing but spaces and a comment stands here.
pub fn is_end(bytes: &[u8]) -> bool
    ensures { result ≡ spec.is_end bytes.now }
{
    uncommented(bytes).is_empty()
}

/// Whether a colon stands here that the line's end or a space follows.
pub fn begins_colon(bytes: &[u8]) -> bool
    ensures { result ≡ spec.begins_colon bytes.now }
{
    match bytes.split_first() {
        Some((first, rest)) => *first == b':' && ends_word(rest),
        None => false,
    }
}

/// Where the first such colon before a comment stands.
pub fn colon_at(bytes: &[u8]) -> Option<usize>
    ensures value { result ≡ spec.colon_from 0 bytes.now }
    ensures within { IfSome result (λ i. i < length bytes.now) }
{
    for i in 0..bytes.len() {
        let (_, rest) = bytes.split_at(i);
        if begins_comment(rest) {
            return None;
        }
        if begins_colon(rest) {
            return Some(i);
        }
    }
    None
}

/// Whether a hyphen stands here that the line's end or a space follows.
pub fn is_item(bytes: &[u8]) -> bool
    ensures { result ≡ spec.is_item bytes.now }
{
    match bytes.split_first() {
        Some((first, rest)) => *first == b'-' && ends_word(rest),
        None => false,
    }
}

/// Whether a single or a double quote stands here.
pub fn is_quoted(bytes: &[u8]) -> bool
    ensures { result ≡ spec.is_quoted bytes.now }
{
    match bytes.first() {
        Some(first) => *first == b'\'' || *first == b'"',
        None => false,
    }
}
