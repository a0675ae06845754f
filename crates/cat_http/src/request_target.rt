//! The path and the query of a request's target.
ghost use Rattle.std.specs.Prelude.{◌≡◌, ◌≤◌, ◌<◌, ℕ, drop, length, slice_index, IsTrue};
ghost use Rattle.cat_http.specs.Head.{after_authority, origin, path_of, query_of, ends_authority};

fn ends_authority(byte: u8) -> bool
    ensures { result ≡ ends_authority byte }
{
    byte == b'/' || byte == b'#' || byte == b'?'
}

/// Where an authority that begins at `start` ends.
fn authority_end(bytes: &[u8], start: usize) -> usize
    requires { start ≤ length bytes.now }
    ensures within { result ≤ length bytes.now }
    ensures after { after_authority (drop start bytes.now)
        ≡ after_authority (drop result bytes.now) }
    ensures stops { result < length bytes.now
        → IsTrue (ends_authority (slice_index bytes.now result)) }
{
    for i in start..bytes.len() {
        if ends_authority(bytes[i]) {
            return i;
        }
    }
    bytes.len()
}

/// Cuts a target that has no authority at its first `?`.
fn cut_origin(origin: &str) -> (&str, &str)
    ensures path { result.0.now ≡ path_of origin.now }
    ensures query { result.1.now ≡ query_of origin.now }
{
    if !origin.as_bytes().starts_with(b"/") {
        return (origin, "");
    }
    match origin.split_once('?') {
        Some((path, query)) => (path, query),
        None => (origin, ""),
    }
}

///! The path and the query of a target.
pub fn cut_target(target: &str) -> (&str, &str)
    ensures path { result.0.now ≡ path_of (origin target.now) }
    ensures query { result.1.now ≡ query_of (origin target.now) }
{
    let bytes = target.as_bytes();
    if !bytes.starts_with(b"http://") {
        return cut_origin(target);
    }
    let at = authority_end(bytes, 7);
    if at == bytes.len() {
        return ("/", "");
    }
    let rest = &target[at..];
    match rest.strip_prefix('?') {
        Some(query) => ("/", query),
        None => cut_origin(rest),
    }
}
